//! The names of the kinds of faults.

ghost use Rattle.std.specs.Prelude.{◌≡◌};
ghost use Rattle.nx_report.specs.Kinds.{kind_name};

use nx_base::fault::Kind;

/// The name that a kind of faults prints as.
pub(crate) fn kind_name(kind: Kind) -> &'static str
    ensures { result.now ≡ kind_name kind }
{
    match kind {
        Kind::BadMarkup => "BadMarkup",
        Kind::BadChar => "BadChar",
        Kind::BadReference => "BadReference",
        Kind::BadText => "BadText",
        Kind::BadComment => "BadComment",
        Kind::BadPi => "BadPi",
        Kind::BadDecl => "BadDecl",
        Kind::Unclosed => "Unclosed",
        Kind::Misplaced => "Misplaced",
        Kind::TextOutside => "TextOutside",
        Kind::MissingEnd => "MissingEnd",
        Kind::ExtraEnd => "ExtraEnd",
        Kind::UnclosedElement => "UnclosedElement",
        Kind::SecondRoot => "SecondRoot",
        Kind::NoRoot => "NoRoot",
        Kind::BadName => "BadName",
        Kind::UndeclaredPrefix => "UndeclaredPrefix",
        Kind::DuplicateAttribute => "DuplicateAttribute",
        Kind::BadBinding => "BadBinding",
        Kind::Unknown => "Unknown",
        Kind::NotAllowed => "NotAllowed",
        Kind::NotYet => "NotYet",
        Kind::UnknownAttribute => "UnknownAttribute",
        Kind::BadValue => "BadValue",
        Kind::MissingAttributes => "MissingAttributes",
        Kind::TextNotAllowed => "TextNotAllowed",
        Kind::Incomplete => "Incomplete",
    }
}
