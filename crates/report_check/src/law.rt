//! What a verdict says.
ghost use Rattle.std.specs.Prelude.{◌≡◌, ℕ, List, All};
ghost use Rattle.trace_text.specs.Parsed.{IsConsistent, IsWellFormed, Parsed, trace_in};
ghost use Rattle.cache_model.specs.Report.{IsLegalReport};
ghost use Rattle.report_check.specs.declared.verdict.Verdict.TheVariants.{Legal};
ghost use Rattle.report_check.specs.Verdict.{verdict};

use numerals::numbers_are_spelled_once;

/// The verdict on bytes is that they are legal exactly where they are a legal report of the trace.
pub fn a_verdict_is_legal_where_the_report_is()
    ensures legal { (trace : Parsed) (pages : ℕ) (bytes : List ℕ) → IsConsistent trace
        → All IsWellFormed (trace_in trace).operations
        → verdict (trace_in trace) trace.shards pages bytes ≡ Legal
        → IsLegalReport (trace_in trace) trace.shards pages bytes }
    ensures report { (trace : Parsed) (pages : ℕ) (bytes : List ℕ) → IsConsistent trace
        → All IsWellFormed (trace_in trace).operations
        → IsLegalReport (trace_in trace) trace.shards pages bytes
        → verdict (trace_in trace) trace.shards pages bytes ≡ Legal }
{
    numbers_are_spelled_once();
}
