ghost use Rattle.std.specs.Prelude.{◌≡◌, ℕ, List, Ok, Err, Some, ◌↔◌};
ghost use Rattle.trace_model.specs.Causes.{causes, first_cause, IsRefused};
ghost use Rattle.trace_model.specs.Plain.{PlainTrace};
ghost use Rattle.trace_model.specs.Spelling.{spelling, IsWellFormed};
ghost use Rattle.trace_model.specs.Reading.{line_at, trace_at, Stop};
ghost use Rattle.trace_model.specs.declared.cause.TraceCause.{TraceCause};

/// Each trace has one spelling.
pub fn spelt_once()
    ensures { (a b : PlainTrace) → IsWellFormed a → IsWellFormed b → spelling a ≡ spelling b → a ≡ b }
{}

/// Bytes have no fault exactly where they are the spelling of a trace.
pub fn read_where_spelt()
    ensures { (bytes : List ℕ) (t : PlainTrace)
        → (trace_at bytes ≡ Ok t) ↔ (IsWellFormed t × (bytes ≡ spelling t)) }
{}

/// A line behind a trace that was read is refused for a cause exactly where the first row of the table of
/// causes that holds for it is that cause's.
pub fn refused_by_first_row()
    ensures { (t : PlainTrace) (line : List ℕ) (c : TraceCause)
        → (line_at t line ≡ Err c) ↔ (first_cause (causes t line) ≡ Some c) }
{}

/// Bytes are refused at a line for a cause exactly where the lines before it spell a trace, or it is the
/// first, and that cause's row is the first that holds for it.
pub fn refused_at_first_fault()
    ensures { (bytes : List ℕ) (stop : Stop) → (trace_at bytes ≡ Err stop) ↔ IsRefused bytes stop }
{}
