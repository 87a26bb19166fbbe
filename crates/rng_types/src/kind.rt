//! What types are put together from.

use rng_more_types::MoreType;

/// What becomes of white space before anything else is asked (XML Schema Part 2, section 4.3.6).
#[derive(Clone, Copy, Debug, PartialEq, Eq)]
pub enum Whitespace {
    /// It stays.
    Preserve,
    /// Each tab, line feed and carriage return becomes a space.
    Replace,
    /// So it does, then spaces in a row become one, and those at the ends go.
    Collapse,
}

/// The form of a text without white space.
#[derive(Clone, Copy, Debug, PartialEq, Eq)]
pub enum Word {
    /// A Name (XML 1.0, section 2.3).
    Name,
    /// A Name without a colon (Namespaces in XML 1.0, section 3).
    NcName,
    /// One or more characters of names (XML 1.0, section 2.3).
    NmToken,
    /// A language tag (XML Schema Part 2, section 3.3.3).
    Language,
    /// A truth value (XML Schema Part 2, section 3.2.2).
    Boolean,
    /// Decimal digits with or without a sign and a point (XML Schema Part 2, section 3.2.3).
    Decimal,
    /// Decimal digits with or without a sign (XML Schema Part 2, section 3.3.13).
    Integer,
}

/// The form of a whole text. Where it is made of words, the text is collapsed.
#[derive(Clone, Copy, Debug, PartialEq, Eq)]
pub enum Form {
    /// Any text, after this treatment of its white space.
    Any(Whitespace),
    /// One word.
    One(Word),
    /// One or more words, separated by white space.
    Several(Word),
    /// A date, a time, or octets.
    More(MoreType),
}

/// Which facets a schema may put on a type.
#[derive(Clone, Copy, Debug, PartialEq, Eq)]
pub enum Takes {
    /// None.
    Nothing,
    /// Those on lengths.
    Lengths,
    /// Those on numbers.
    Bounds,
}
