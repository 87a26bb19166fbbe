//! The ways in which the characters of a token are read.

/// How characters are read.
#[derive(Clone, Copy)]
pub enum Reading {
    /// Each stands for itself, but for line ends: CDATA sections, comments, processing instructions.
    Plain,
    /// With references, and no `]]>`: character data.
    Text,
    /// With references, and white space as spaces: the values of a tag.
    Value,
}
