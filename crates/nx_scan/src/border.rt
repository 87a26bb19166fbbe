//! Laws of tokens and their borders. Nothing here runs.

ghost use Rattle.nx_scan.specs.Borders.{TokensFit, TokensAtEnds, TokensAreOfKind, TokensDependOnRest, TokensDependOnThemselves};
ghost use Rattle.nx_scan.specs.Borders.{EditsLeaveTokens, TokensJoin, TokensGoOn, TokensFromBorder};
ghost use Rattle.nx_scan.specs.Markup.{TokensStayBeforeMarkup, NamesMakeTags};

/// A token is bytes of its text, at least one, and ends at a place.
pub fn tokens_fit()
    ensures { TokensFit }
{}

/// A byte order mark is a token at 0 alone; a token without its own end reaches the length.
pub fn tokens_at_ends()
    ensures { TokensAtEnds }
{}

/// A token is of its kind: its own bytes alone begin with the same token.
pub fn tokens_are_of_kind()
    ensures { TokensAreOfKind }
{}

/// A token depends on the text from its place on alone.
pub fn tokens_depend_on_rest()
    ensures { TokensDependOnRest }
{}

/// A token depends on its own bytes and the next character alone.
pub fn tokens_depend_on_themselves()
    ensures { TokensDependOnThemselves }
{}

/// An edit behind a token and the next character leaves it.
pub fn edits_leave_tokens()
    ensures { EditsLeaveTokens }
{}

/// Each byte of a text lies in exactly one token: the tokens lie one behind another through the whole text.
pub fn tokens_join()
    ensures { TokensJoin }
{}

/// Cutting goes on at the end of a token.
pub fn tokens_go_on()
    ensures { TokensGoOn }
{}

/// Cutting from a border gives the rest of the list.
pub fn tokens_from_border()
    ensures { TokensFromBorder }
{}

/// A token that has an end of its own, or is character data, stays where markup is put behind it.
pub fn tokens_stay_before_markup()
    ensures { TokensStayBeforeMarkup }
{}

/// A Name between `<` or `</` and `>` is a start tag or an end tag, whatever follows it.
pub fn names_make_tags()
    ensures { NamesMakeTags }
{}
