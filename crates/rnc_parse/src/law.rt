//! Laws of reading. Nothing here runs.

ghost use Rattle.rnc_parse.specs.Laws.{TextsAreReadAsOne, WhatIsReadIsNotRefused, TextsAreRefusedForOneCause, TextsAreReadOrRefused};
ghost use Rattle.rnc_parse.specs.Laws.{FilesSayOneThing, TokensSayOneThing, WhatIsSaidIsNotRefused};

/// A text is read as one surface at most.
pub fn texts_are_read_as_one()
    ensures { TextsAreReadAsOne }
{}

/// A text that is read is refused for no cause.
pub fn what_is_read_is_not_refused()
    ensures { WhatIsReadIsNotRefused }
{}

/// A text is refused for one cause at most.
pub fn texts_are_refused_for_one_cause()
    ensures { TextsAreRefusedForOneCause }
{}

/// Each text is read, or refused for some cause.
pub fn texts_are_read_or_refused()
    ensures { TextsAreReadOrRefused }
{}

/// Tokens are one file at most, whatever prefixes stand for: the grammar is unambiguous as far as the surface goes.
pub fn files_say_one_thing()
    ensures { FilesSayOneThing }
{}

/// Tokens say one thing at most.
pub fn tokens_say_one_thing()
    ensures { TokensSayOneThing }
{}

/// Tokens that say something are a file, leave no prefix out and declare none twice.
pub fn what_is_said_is_not_refused()
    ensures { WhatIsSaidIsNotRefused }
{}
