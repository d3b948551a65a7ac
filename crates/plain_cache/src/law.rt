//! Laws of journals, as the user of a cache wants them.
ghost use Rattle.std.specs.Prelude.{◌≡◌, ℕ, ◌≤◌, List, ◌∷◌, ◌++◌, map, false, Some, None};
ghost use Rattle.std.specs.List.{list_any};
ghost use Rattle.layout.specs.Sizes.{tickets};
ghost use Rattle.rows.specs.declared.kind.Kind.{Kind as Kinds};
ghost use Rattle.rows.specs.Operation.{Operation};
ghost use Rattle.trace_text.specs.Trace.{Trace, regions};
ghost use Rattle.cache_model.specs.declared.entry.Entry.{Entry as JournalEntry};
ghost use Rattle.cache_model.specs.declared.entry.Entry.TheVariants.{Done};
ghost use Rattle.rows.specs.Row.{floor, tight_floor};
ghost use Rattle.cache_model.specs.Legal.{command_of, done, is_done, reply_at, IsLegal};
ghost use Rattle.plain_cache.specs.Kept.{commands_done, reply_of_get, value_behind, StaysWithin};

/// While the live bytes of a cache stay within the floor, no row is evicted, and a get gives the value of the last put of its
/// key: `Missing` only where the key was erased since, or was never put.
pub fn a_get_finds_what_was_put_last()
    ensures none_goes { (trace : Trace) (pages : ℕ) (journal : List JournalEntry)
        → IsLegal trace pages journal → StaysWithin trace pages (floor pages (regions trace)) journal
        → journal ≡ map (λ i. Done i) (done journal) }
    ensures found { (trace : Trace) (pages i : ℕ) (before later : List JournalEntry) (operation : Operation)
        → IsLegal trace pages (before ++ Done i ∷ later)
        → StaysWithin trace pages (floor pages (regions trace)) (before ++ Done i ∷ later)
        → list_any (is_done i) before ≡ false → command_of trace i ≡ Some operation → operation.kind ≡ Kinds.Get
        → reply_at trace pages (before ++ Done i ∷ later) i
        ≡ Some (reply_of_get (value_behind operation.key (commands_done trace before) None)) }
{}

/// However many tickets are out, and of however many regions, what the live bytes exceed at an eviction is at least the floor.
pub fn a_tight_floor_is_at_least_the_floor()
    ensures { (pages lent count : ℕ) → lent ≤ tickets → floor pages count ≤ tight_floor pages lent count }
{}
