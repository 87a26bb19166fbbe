//! How grave a report is.

ghost use Rattle.std.specs.Prelude.{◌≡◌};
ghost use Rattle.nx_report.specs.Lines.{severity_word};

/// How grave a report is.
#[derive(Clone, Copy, Debug, PartialEq, Eq)]
pub enum Severity {
    Error,
    Warning,
    Note,
}

impl Severity {
    /// Its word in a line.
    pub(crate) fn word(self) -> &'static str
        ensures { result.now ≡ severity_word self }
    {
        match self {
            Severity::Error => "error",
            Severity::Warning => "warning",
            Severity::Note => "note",
        }
    }
}
