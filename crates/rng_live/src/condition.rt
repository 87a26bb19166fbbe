//! Conditions that rest on one another.

ghost use Rattle.std.specs.Prelude.{◌≡◌, option_copied, slice_get};
ghost use Rattle.rng_live.specs.Conditions.{is_marked, holds_where};

/// When the thing of a number holds, by the numbers of those that it rests on.
#[derive(Clone, Copy, Debug, PartialEq, Eq)]
pub(crate) enum Condition {
    /// Always, or never.
    Known(bool),
    /// Where another does, if the flag is set.
    If(bool, usize),
    /// Where two others do.
    Both(usize, usize),
    /// Where one of two others does.
    Either(usize, usize),
}

/// Whether the thing of a number is marked.
pub(crate) fn is_marked_at(marks: &[bool], number: usize) -> bool
    ensures { result ≡ is_marked marks.now number }
{
    match marks.get(number) {
        Some(mark) => *mark,
        None => false,
    }
}

/// The condition of a number; none where there is none.
pub(crate) fn condition_at(conditions: &[Condition], number: usize) -> Option<&Condition>
    ensures { option_copied result ≡ slice_get conditions.now number }
{
    conditions.get(number)
}

impl Condition {
    /// Whether it holds by the marks of those that it rests on.
    pub(crate) fn holds(&self, marks: &[bool]) -> bool
        ensures { result ≡ holds_where (is_marked marks.now) self.now }
    {
        match self {
            Condition::Known(known) => *known,
            Condition::If(flag, on) => *flag && is_marked_at(marks, *on),
            Condition::Both(a, b) => is_marked_at(marks, *a) && is_marked_at(marks, *b),
            Condition::Either(a, b) => is_marked_at(marks, *a) || is_marked_at(marks, *b),
        }
    }
}
