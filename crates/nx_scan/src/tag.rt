//! Tags, XML 1.0 section 3.1, read character by character.

ghost use Rattle.std.specs.Prelude.{◌≡◌};
ghost use Rattle.nx_base.specs.Characters.{is_name_char, is_name_start};
ghost use Rattle.nx_scan.specs.Tag.{left_of, left_after};

use nx_base::character::{self, is_space};

/// What was read of a tag so far.
#[derive(Clone, Copy, Debug, PartialEq, Eq)]
pub(crate) enum TagState {
    /// `<`
    Open,
    /// A part of a start tag's name.
    Name,
    /// White space where an attribute may begin.
    Gap,
    /// A part of an attribute's name.
    Attribute,
    /// White space behind an attribute's name.
    AttributeGap,
    /// An attribute's `=`, and white space.
    Equals,
    /// A part of a value in double quotes.
    Double,
    /// A part of a value in single quotes.
    Single,
    /// A value with its quotes.
    Value,
    /// The `/` of an empty-element tag.
    Slash,
    /// `</`
    EndOpen,
    /// A part of an end tag's name.
    EndName,
    /// White space behind an end tag's name.
    EndGap,
    /// A whole start tag.
    Start,
    /// A whole empty-element tag.
    Empty,
    /// A whole end tag.
    End,
    /// What is no tag's beginning.
    Lost,
}

impl TagState {
    /// What was read with one more character.
    #[inline(always)]
    #[tactic(auto, using(crate::proofs::Reading::whole_lost))]
    pub(crate) fn then(self, c: char) -> TagState
        ensures { left_of result ≡ left_after (left_of self) c }
    {
        match self {
            TagState::Open => behind_open(c),
            TagState::Name => in_name(c),
            TagState::Gap => in_gap(c),
            TagState::Attribute => in_attribute(c),
            TagState::AttributeGap => behind_attribute(c),
            TagState::Equals => behind_equals(c),
            TagState::Double => in_double(c),
            TagState::Single => in_single(c),
            TagState::Value => behind_value(c),
            TagState::Slash => behind_slash(c),
            TagState::EndOpen => behind_end_open(c),
            TagState::EndName => in_end_name(c),
            TagState::EndGap => behind_end_name(c),
            TagState::Start | TagState::Empty | TagState::End | TagState::Lost => TagState::Lost,
        }
    }
}

// Most characters of names are small letters, and most names end with one of three characters: these are asked for first.

/// Whether a name may begin with the character.
#[tactic(auto, unfolding(nx_base::specs::Characters::is_name_start))]
fn is_name_start(c: char) -> bool
    ensures { result ≡ is_name_start c }
{
    if c.is_ascii_lowercase() {
        return true;
    }
    character::is_name_start(c)
}

/// Whether the character may stand in a name.
#[tactic(auto, unfolding(nx_base::specs::Characters::is_name_char, nx_base::specs::Characters::is_name_start))]
fn is_name_char(c: char) -> bool
    ensures { result ≡ is_name_char c }
{
    if c.is_ascii_lowercase() {
        return true;
    }
    match c {
        '>' => false,
        ' ' => false,
        '=' => false,
        _ => character::is_name_char(c),
    }
}

#[tactic(auto, using(crate::proofs::Reading::open_rules))]
fn behind_open(c: char) -> TagState
    ensures { left_of result ≡ left_after (left_of TagState.Open) c }
{
    if c == '/' {
        TagState::EndOpen
    } else if is_name_start(c) {
        TagState::Name
    } else {
        TagState::Lost
    }
}

#[tactic(auto, using(crate::proofs::Reading::name_rules))]
fn in_name(c: char) -> TagState
    ensures { left_of result ≡ left_after (left_of TagState.Name) c }
{
    if is_name_char(c) {
        TagState::Name
    } else {
        behind_value(c)
    }
}

#[tactic(auto, using(crate::proofs::Reading::value_rules))]
fn behind_value(c: char) -> TagState
    ensures { left_of result ≡ left_after (left_of TagState.Value) c }
{
    if is_space(c) {
        TagState::Gap
    } else if c == '>' {
        TagState::Start
    } else if c == '/' {
        TagState::Slash
    } else {
        TagState::Lost
    }
}

#[tactic(auto, using(crate::proofs::Reading::gap_rules))]
fn in_gap(c: char) -> TagState
    ensures { left_of result ≡ left_after (left_of TagState.Gap) c }
{
    if is_name_start(c) {
        TagState::Attribute
    } else {
        behind_value(c)
    }
}

#[tactic(auto, using(crate::proofs::Reading::attribute_rules))]
fn in_attribute(c: char) -> TagState
    ensures { left_of result ≡ left_after (left_of TagState.Attribute) c }
{
    if is_name_char(c) {
        TagState::Attribute
    } else {
        behind_attribute(c)
    }
}

#[tactic(auto, using(crate::proofs::Reading::attribute_gap_rules))]
fn behind_attribute(c: char) -> TagState
    ensures { left_of result ≡ left_after (left_of TagState.AttributeGap) c }
{
    if is_space(c) {
        TagState::AttributeGap
    } else if c == '=' {
        TagState::Equals
    } else {
        TagState::Lost
    }
}

#[tactic(auto, using(crate::proofs::Reading::equals_rules))]
fn behind_equals(c: char) -> TagState
    ensures { left_of result ≡ left_after (left_of TagState.Equals) c }
{
    if is_space(c) {
        TagState::Equals
    } else if c == '"' {
        TagState::Double
    } else if c == '\'' {
        TagState::Single
    } else {
        TagState::Lost
    }
}

#[tactic(auto, using(crate::proofs::Reading::double_rules))]
fn in_double(c: char) -> TagState
    ensures { left_of result ≡ left_after (left_of TagState.Double) c }
{
    match c {
        '"' => TagState::Value,
        '<' => TagState::Lost,
        _ => TagState::Double,
    }
}

#[tactic(auto, using(crate::proofs::Reading::single_rules))]
fn in_single(c: char) -> TagState
    ensures { left_of result ≡ left_after (left_of TagState.Single) c }
{
    match c {
        '\'' => TagState::Value,
        '<' => TagState::Lost,
        _ => TagState::Single,
    }
}

#[tactic(auto, using(crate::proofs::Reading::slash_rules))]
fn behind_slash(c: char) -> TagState
    ensures { left_of result ≡ left_after (left_of TagState.Slash) c }
{
    if c == '>' {
        TagState::Empty
    } else {
        TagState::Lost
    }
}

#[tactic(auto, using(crate::proofs::Reading::end_open_rules))]
fn behind_end_open(c: char) -> TagState
    ensures { left_of result ≡ left_after (left_of TagState.EndOpen) c }
{
    if is_name_start(c) {
        TagState::EndName
    } else {
        TagState::Lost
    }
}

#[tactic(auto, using(crate::proofs::Reading::end_name_rules))]
fn in_end_name(c: char) -> TagState
    ensures { left_of result ≡ left_after (left_of TagState.EndName) c }
{
    if is_name_char(c) {
        TagState::EndName
    } else {
        behind_end_name(c)
    }
}

#[tactic(auto, using(crate::proofs::Reading::end_gap_rules))]
fn behind_end_name(c: char) -> TagState
    ensures { left_of result ≡ left_after (left_of TagState.EndGap) c }
{
    if is_space(c) {
        TagState::EndGap
    } else if c == '>' {
        TagState::End
    } else {
        TagState::Lost
    }
}
