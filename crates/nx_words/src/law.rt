//! That words are read as what their form says. Nothing here runs.

ghost use Rattle.nx_words.specs.Grammar.{WordsAreRead};

/// Words are read as a command line exactly where the grammar says that line of them. An option stands in it once at most, the script once.
pub fn words_are_read()
    ensures { WordsAreRead }
{}
