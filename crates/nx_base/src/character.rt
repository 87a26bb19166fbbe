//! Classes of characters of XML 1.0 (fifth edition).

ghost use Rattle.std.specs.Prelude.{◌≡◌};
ghost use Rattle.std.specs.List.{list_all};
ghost use Rattle.std.specs.Str.{chars};
ghost use Rattle.nx_base.specs.Characters.{is_char, is_space, is_quote, is_name_start, is_name_char, is_name, is_nc_name};

/// Whether XML allows the character: Char, section 2.2.
#[tactic(auto, unfolding(crate::specs::Characters::is_char))]
pub fn is_char(c: char) -> bool
    ensures { result ≡ is_char c }
{
    matches!(c, '\t' | '\n' | '\r' | ' '..='\u{D7FF}' | '\u{E000}'..='\u{FFFD}' | '\u{10000}'..='\u{10FFFF}')
}

/// Whether it is white space: S, section 2.3.
#[tactic(auto, unfolding(crate::specs::Characters::is_space))]
pub fn is_space(c: char) -> bool
    ensures { result ≡ is_space c }
{
    matches!(c, '\t' | '\n' | '\r' | ' ')
}

/// Whether it is a single or double quote, as literals begin and end with.
pub fn is_quote(c: char) -> bool
    ensures { result ≡ is_quote c }
{
    c == '"' || c == '\''
}

/// Whether a name may begin with it: NameStartChar, section 2.3.
#[tactic(auto, unfolding(crate::specs::Characters::is_name_start))]
pub fn is_name_start(c: char) -> bool
    ensures { result ≡ is_name_start c }
{
    matches!(
        c,
        ':' | 'A'..='Z' | '_' | 'a'..='z' | '\u{C0}'..='\u{D6}' | '\u{D8}'..='\u{F6}'
            | '\u{F8}'..='\u{2FF}' | '\u{370}'..='\u{37D}' | '\u{37F}'..='\u{1FFF}'
            | '\u{200C}'..='\u{200D}' | '\u{2070}'..='\u{218F}' | '\u{2C00}'..='\u{2FEF}'
            | '\u{3001}'..='\u{D7FF}' | '\u{F900}'..='\u{FDCF}' | '\u{FDF0}'..='\u{FFFD}'
            | '\u{10000}'..='\u{EFFFF}'
    )
}

/// Whether it may stand in a name: NameChar, section 2.3.
#[tactic(auto, unfolding(crate::specs::Characters::is_name_char))]
pub fn is_name_char(c: char) -> bool
    ensures { result ≡ is_name_char c }
{
    is_name_start(c)
        || matches!(c, '-' | '.' | '0'..='9' | '\u{B7}' | '\u{300}'..='\u{36F}' | '\u{203F}'..='\u{2040}')
}

fn are_name_chars(text: &str) -> bool
    ensures { result ≡ list_all is_name_char (chars text.now) }
{
    text.chars().all(is_name_char)
}

/// Whether a text is a Name (XML 1.0, section 2.3).
pub fn is_name(text: &str) -> bool
    ensures { result ≡ is_name (chars text.now) }
{
    match text.chars().next() {
        Some(first) => is_name_start(first) && are_name_chars(text),
        None => false,
    }
}

/// Whether a text is a Name without a colon (Namespaces in XML 1.0, section 3).
pub fn is_nc_name(text: &str) -> bool
    ensures { result ≡ is_nc_name (chars text.now) }
{
    is_name(text) && text.chars().all(|c| c != ':')
}
