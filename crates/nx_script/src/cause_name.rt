//! The names of the causes for which a schema can't be used.

ghost use Rattle.std.specs.Prelude.{◌≡◌};
ghost use Rattle.nx_script.specs.Causes.{cause_name};

use nx_base::cause::Cause;

/// The name that a cause prints as.
pub(crate) fn cause_name(why: Cause) -> &'static str
    ensures { result.now ≡ cause_name why }
{
    match why {
        Cause::BadEscape => "BadEscape",
        Cause::BadLiteral => "BadLiteral",
        Cause::BadCharacter => "BadCharacter",
        Cause::Syntax => "Syntax",
        Cause::TooDeep => "TooDeep",
        Cause::UndeclaredPrefix => "UndeclaredPrefix",
        Cause::Twice => "Twice",
        Cause::BadMarkup => "BadMarkup",
        Cause::BadForm => "BadForm",
        Cause::NotGrammar => "NotGrammar",
        Cause::IncludeLoop => "IncludeLoop",
        Cause::NoDefinition => "NoDefinition",
        Cause::NoStart => "NoStart",
        Cause::CombineClash => "CombineClash",
        Cause::RefLoop => "RefLoop",
        Cause::BadExcept => "BadExcept",
        Cause::XmlnsName => "XmlnsName",
        Cause::TooLarge => "TooLarge",
        Cause::UnknownType => "UnknownType",
        Cause::UnknownParam => "UnknownParam",
        Cause::BadParam => "BadParam",
        Cause::BadValue => "BadValue",
        Cause::TooManyExcepts => "TooManyExcepts",
        Cause::UnsupportedExcept => "UnsupportedExcept",
        Cause::Path => "Path",
        Cause::Mixture => "Mixture",
        Cause::AttributeOverlap => "AttributeOverlap",
        Cause::WildcardOnce => "WildcardOnce",
        Cause::InterleaveOverlap => "InterleaveOverlap",
        Cause::TextTwice => "TextTwice",
        Cause::NothingValid => "NothingValid",
    }
}
