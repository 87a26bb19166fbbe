//! Laws of reports. Nothing here runs.

ghost use Rattle.nx_report.specs.Lines.{LinesAreOneLine};
ghost use Rattle.nx_report.specs.Words.{DetailsAreRead};

/// Each report is one line: whatever names, details and offers hold, its only control character of ASCII is the line feed at its end.
pub fn lines_are_one_line()
    ensures { LinesAreOneLine }
{}

/// What a sentence tells of a detail with several names are those names: of the attributes that are missing, and of the elements that are
/// needed.
pub fn details_are_read()
    ensures { DetailsAreRead }
{}
