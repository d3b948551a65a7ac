//! Texts and numbers written into a message.
ghost use Rattle.std.specs.Prelude.{◌≡◌, ◌+◌, ◌≤◌, ◌++◌, length, take, drop};

/// Writes a text over the bytes from `at` on.
pub(crate) fn write_at(into: &mut [u8], at: usize, text: &[u8])
    requires { at + length text.now ≤ length into.old }
    ensures { into.new ≡ take at into.old ++ text.now ++ drop (at + length text.now) into.old }
{
    into[at..at + text.len()].copy_from_slice(text);
}
