//! That the sizes hang together.
ghost use Rattle.std.specs.Prelude.{◌≡◌, ℕ, ◌+◌, ◌≤◌};
ghost use Rattle.layout.specs.Sizes.{descriptor, greatest_object};
ghost use Rattle.object_log.specs.Objects.{IsSize};
ghost use Rattle.fragments.specs.Sizes as sizes;

/// A fragment of as many bytes as can be is the greatest object, each fragment's object has a size that objects can have, and
/// the greatest value has the most fragments.
///
/// # Examples
/// A caller cites `sizes_hang_together();` for the size of a fragment's object being one that `Region::place` takes.
pub fn sizes_hang_together()
    ensures greatest { sizes.object_size sizes.fragment_bytes ≡ greatest_object }
    ensures whole { descriptor + sizes.header + sizes.fragment_bytes ≡ greatest_object }
    ensures object { (len : ℕ) → len ≤ sizes.fragment_bytes → IsSize (sizes.object_size len) }
    ensures most { sizes.count_of sizes.greatest_value ≡ sizes.most_fragments }
{}
