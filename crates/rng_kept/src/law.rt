//! Worked examples of the definitions, as laws. Nothing here runs.

ghost use Rattle.rng_kept.specs.Examples.{KeepsLists, NoParagraphAlone, LeavesResiduals, ShufflesChildren, SharesWays, CountsChildren, NeedsElements};

/// Behind each kind of move a list that it keeps, and a list that can't become valid.
pub fn moves_keep_lists()
    ensures kept { KeepsLists }
    ensures none { NoParagraphAlone }
{}

/// What is left of a schema behind some events of a document, and which events it doesn't admit.
pub fn events_leave_residuals()
    ensures in_order { LeavesResiduals }
    ensures in_any_order { ShufflesChildren }
    ensures shared { SharesWays }
{}

/// Elements that every content needs which can be skipped, and what counts as an element of it.
pub fn skips_need_elements()
    ensures children { CountsChildren }
    ensures needed { NeedsElements }
{}
