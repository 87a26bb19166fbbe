//! A script cut into lines.

ghost use Rattle.std.specs.Prelude.{◌≡◌, ◌<◌, ◌∷◌, length};
ghost use Rattle.std.specs.Str.Lines.{strip_carriage_return};
ghost use Rattle.nx_script.specs.Lines.{lines_of, RawLinesAreTheLines};

/// The first line of a text that isn't empty, without its end, and what follows it.
pub fn split_line(text: &str) -> (&str, &str)
    requires { 0 < length text.now }
    ensures lines { lines_of text.now ≡ result.0.now ∷ lines_of result.1.now }
    ensures shorter { length result.1.now < length text.now }
{
    match text.split_once('\n') {
        Some((line, rest)) => (without_cr(line), rest),
        None => (without_cr(text), ""),
    }
}

/// The line without the one CR at its end.
fn without_cr(line: &str) -> &str
    ensures { result.now ≡ strip_carriage_return line.now }
{
    line.strip_suffix('\r').unwrap_or(line)
}

/// With the CRs that end some of them, the lines are what the text is in, and there are no others.
pub fn raw_lines_are_the_lines()
    ensures { RawLinesAreTheLines }
{}
