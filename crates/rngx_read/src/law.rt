//! Laws of reading. Nothing here runs.

ghost use Rattle.rngx_read.specs.Laws.{ElementsSayOneThing};
ghost use Rattle.rngx_read.specs.Laws.{WhatIsSaidLeavesNoPrefixOut, ElementsAreReadOrRefused};
ghost use Rattle.rngx_read.specs.Laws.{MarkupIsReadAsOne, MarkupReadIsNotRefused, MarkupIsReadOrRefused, FaultsAreToldFirst, DepthIsToldNext};
ghost use Rattle.rngx_read.specs.Laws.{TextsAreReadAsOne, WhatIsReadIsNotRefused, TextsAreReadOrRefused};

/// Elements say one thing at most, whatever prefixes stand for.
pub fn elements_say_one_thing()
    ensures { ElementsSayOneThing }
{}

/// Elements that say something leave no prefix out.
pub fn what_is_said_leaves_no_prefix_out()
    ensures { WhatIsSaidLeavesNoPrefixOut }
{}

/// Elements say something, have no form, or leave a prefix out.
pub fn elements_are_read_or_refused()
    ensures { ElementsAreReadOrRefused }
{}

/// A text in the XML syntax is read as one surface at most.
pub fn markup_is_read_as_one()
    ensures { MarkupIsReadAsOne }
{}

/// A text in the XML syntax that is read is refused for no cause.
pub fn markup_read_is_not_refused()
    ensures { MarkupReadIsNotRefused }
{}

/// Each text in the XML syntax is read, or refused for some cause.
pub fn markup_is_read_or_refused()
    ensures { MarkupIsReadOrRefused }
{}

/// A text with a fault is refused for the first one.
pub fn faults_are_told_first()
    ensures { FaultsAreToldFirst }
{}

/// A text without faults in which 201 elements are open at once is refused for that.
pub fn depth_is_told_next()
    ensures { DepthIsToldNext }
{}

/// The text of a file, in either syntax, is read as one surface at most.
pub fn texts_are_read_as_one()
    ensures { TextsAreReadAsOne }
{}

/// The text of a file that is read is refused for no cause.
pub fn what_is_read_is_not_refused()
    ensures { WhatIsReadIsNotRefused }
{}

/// The text of each file is read, or refused for some cause.
pub fn texts_are_read_or_refused()
    ensures { TextsAreReadOrRefused }
{}
