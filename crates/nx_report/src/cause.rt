//! The causes for which a schema can't be used, in words.

ghost use Rattle.std.specs.Prelude.{◌≡◌};
ghost use Rattle.nx_report.specs.Causes.{cause_text};

use nx_base::cause::Cause;

/// What a cause says of a schema.
pub(crate) fn cause_text(cause: Cause) -> &'static str
    ensures { result.now ≡ cause_text cause }
{
    match cause {
        Cause::BadEscape => "this escape denotes no character",
        Cause::BadLiteral => "this literal has no end",
        Cause::BadCharacter => "this character may not stand here",
        Cause::Syntax => "this isn't the compact syntax of RELAX NG",
        Cause::TooDeep => "more than 200 brackets or elements are open here",
        Cause::UndeclaredPrefix => "a prefix isn't declared",
        Cause::Twice => "a prefix is declared twice, or may not be declared so",
        Cause::BadMarkup => "this is no well-formed XML",
        Cause::BadForm => "this isn't the XML syntax of RELAX NG",
        Cause::NotGrammar => "a file that is included is no grammar",
        Cause::IncludeLoop => "a file refers to itself, perhaps through others",
        Cause::NoDefinition => "a name is referred to or overridden that has no definition",
        Cause::NoStart => "the grammar has no start",
        Cause::CombineClash =>
            "definitions of one name don't say how they are combined, or say it in two ways",
        Cause::RefLoop => "a definition leads back to itself without an element between",
        Cause::BadExcept => "a wildcard may not be excepted from one that is no wider",
        Cause::XmlnsName => "a name is used that belongs to the declaration of namespaces",
        Cause::TooLarge => "the schema is too large",
        Cause::UnknownType => "a datatype isn't known",
        Cause::UnknownParam => "a datatype has no such parameter",
        Cause::BadParam => "the value of a datatype's parameter isn't of its form",
        Cause::BadValue => "a value isn't one of its datatype",
        Cause::TooManyExcepts => "more than 128 values are excepted at once",
        Cause::UnsupportedExcept =>
            "from a datatype something is excepted that isn't a choice of its values",
        Cause::Path => "a pattern stands in one in which it may not stand",
        Cause::Mixture => "data or a value stands beside elements or text",
        Cause::AttributeOverlap => "two attributes of one element can have the same name",
        Cause::WildcardOnce => "an attribute with a wildcard for its name isn't repeated",
        Cause::InterleaveOverlap => "elements of one name stand on both sides of an interleave",
        Cause::TextTwice => "text stands on both sides of an interleave",
        Cause::NothingValid => "no document is valid by this schema",
    }
}
