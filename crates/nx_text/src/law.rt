//! Laws of texts. Nothing here runs.

ghost use Rattle.nx_text.specs.Borders.{BordersAreOfClusters};
ghost use Rattle.nx_text.specs.Feeds.{FeedsAreListed, KeptFeedsAreOfText};

/// The borders are where the clusters begin that `unicode_segmentation` cuts the whole text into, and its end.
pub fn borders_are_of_clusters()
    ensures { BordersAreOfClusters }
{}

/// The list of a text's line feeds has each of them once, in order, and nothing else.
pub fn feeds_are_listed()
    ensures { FeedsAreListed }
{}

/// What a text keeps of its line feeds, in front of the gap and behind it, is the list of them all.
pub fn kept_feeds_are_of_text()
    ensures { KeptFeedsAreOfText }
{}
