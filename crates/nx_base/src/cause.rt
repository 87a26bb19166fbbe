//! Why a schema can't be used.

/// Why the files of a schema make no grammar, or a grammar that can't be used. The section of
/// ISO/IEC 19757-2, or of the compact syntax (its Annex C), stands behind those that have one.
#[derive(Clone, Copy, Debug, PartialEq, Eq)]
pub enum Cause {
    /// An escape `\x{..}` that denotes no character (Annex C.2).
    BadEscape,
    /// A literal that isn't closed (Annex C.2).
    BadLiteral,
    /// A character that XML doesn't allow, or that begins no token (Annex C.2).
    BadCharacter,
    /// Tokens that are in no reading of the grammar (Annex C.2).
    Syntax,
    /// 201 brackets, or elements of the XML syntax, that are open at once.
    TooDeep,
    /// A prefix that nothing declares (7.11, Annex C.3).
    UndeclaredPrefix,
    /// A prefix that is declared twice, or that may not be declared so (Annex C.3).
    Twice,
    /// A file in the XML syntax that is no well-formed document (5).
    BadMarkup,
    /// Elements that are in no reading of the XML syntax (6, Annex A).
    BadForm,
    /// An included file that is no grammar (7.8).
    NotGrammar,
    /// A file that refers to itself through a chain (7.7, 7.8).
    IncludeLoop,
    /// A reference to no definition (7.19), or an override of none (7.8).
    NoDefinition,
    /// A grammar without a start (7.19).
    NoStart,
    /// Definitions of one name that don't say how they are combined, or say it in two ways (7.18).
    CombineClash,
    /// A cycle of references that passes no element (7.20).
    RefLoop,
    /// A wildcard taken from a wildcard (7.17).
    BadExcept,
    /// A class with a name that belongs to namespace declarations (7.17).
    XmlnsName,
    /// A grammar beyond the limits of nodes.
    TooLarge,
    /// A datatype that isn't known (7.17).
    UnknownType,
    /// A param that a datatype doesn't have (7.17).
    UnknownParam,
    /// A param's value that isn't of its form (7.17).
    BadParam,
    /// A value that its datatype doesn't accept (7.17).
    BadValue,
    /// More than 128 values in one except.
    TooManyExcepts,
    /// An except of a datatype that isn't a choice of values of its own or the built-in types.
    UnsupportedExcept,
    /// A pattern below one that it may not stand in (10.2).
    Path,
    /// Data or a value beside elements or text (10.3).
    Mixture,
    /// Two attributes that can have one name (10.4).
    AttributeOverlap,
    /// An attribute with a wildcard that isn't repeated (10.4).
    WildcardOnce,
    /// An interleave with one element's name on both sides (10.5).
    InterleaveOverlap,
    /// An interleave with text on both sides (10.5).
    TextTwice,
    /// A schema that no document is valid for.
    NothingValid,
}
