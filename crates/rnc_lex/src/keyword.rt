//! The keywords.

ghost use Rattle.std.specs.Prelude.{◌≡◌};
ghost use Rattle.std.specs.List.{find};
ghost use Rattle.std.specs.Option.{option_copied};
ghost use Rattle.std.specs.Str.{bytes_eq};
ghost use Rattle.rnc_lex.specs.Words.{keyword_text};
ghost use Rattle.rnc_lex.specs.Reading.{keyword_of};

use crate::token::Keyword;

const KEYWORDS: [Keyword; 19] = [
    Keyword::Attribute,
    Keyword::Default,
    Keyword::Datatypes,
    Keyword::Div,
    Keyword::Element,
    Keyword::Empty,
    Keyword::External,
    Keyword::Grammar,
    Keyword::Include,
    Keyword::Inherit,
    Keyword::List,
    Keyword::Mixed,
    Keyword::Namespace,
    Keyword::NotAllowed,
    Keyword::Parent,
    Keyword::Start,
    Keyword::String,
    Keyword::Text,
    Keyword::Token,
];

/// How a keyword is spelled.
pub fn spelling(keyword: Keyword) -> &'static str
    ensures { result.now ≡ keyword_text keyword }
{
    match keyword {
        Keyword::Attribute => "attribute",
        Keyword::Default => "default",
        Keyword::Datatypes => "datatypes",
        Keyword::Div => "div",
        Keyword::Element => "element",
        Keyword::Empty => "empty",
        Keyword::External => "external",
        Keyword::Grammar => "grammar",
        Keyword::Include => "include",
        Keyword::Inherit => "inherit",
        Keyword::List => "list",
        Keyword::Mixed => "mixed",
        Keyword::Namespace => "namespace",
        Keyword::NotAllowed => "notAllowed",
        Keyword::Parent => "parent",
        Keyword::Start => "start",
        Keyword::String => "string",
        Keyword::Text => "text",
        Keyword::Token => "token",
    }
}

/// The first of the keywords with this spelling.
fn first_keyword<'a>(keywords: &'a [Keyword], word: &str) -> Option<&'a Keyword>
    ensures { option_copied result ≡ find (λ keyword. bytes_eq (keyword_text keyword) word.now) keywords.now }
{
    keywords.iter().find(|keyword| spelling(**keyword) == word)
}

/// The keyword of this spelling, if it is one.
#[tactic(auto, unfolding(crate::specs::Reading::keyword_of))]
pub(crate) fn keyword_of(word: &str) -> Option<Keyword>
    ensures { result ≡ keyword_of word.now }
{
    first_keyword(&KEYWORDS, word).copied()
}
