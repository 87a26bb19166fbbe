//! Laws of what is printed. Nothing here runs.

ghost use Rattle.nx_script.specs.Escapes.{TextsPrintByCharacter};
ghost use Rattle.nx_script.specs.Replies.{RepliesPrintText};

/// A text prints character by character: some as escapes, all others as they are.
pub fn texts_print_by_character()
    ensures { TextsPrintByCharacter }
{}

/// What a reply prints is UTF-8, where the texts that it holds are.
pub fn replies_print_text()
    ensures { RepliesPrintText }
{}
