//! What is left of a way, as patterns.

use rng_core::grammar::Pat;

/// What is left of one way to go on: of the open tag, of the children of each open element, and outside of the root. A way may leave
/// several of these to choose; here the choice is made.
#[derive(Drop)]
pub struct Left {
    /// What is left of the content of the element whose start tag is open, if one is.
    pub tag: Option<Pat>,
    /// Of each other open element what is left of its children, the innermost first.
    pub levels: Vec<Level>,
    /// What is left outside of the root.
    pub document: Pat,
}

/// What is left of the children of an open element.
#[derive(Drop)]
pub enum Level {
    /// There may be none.
    Void,
    /// This, of the children as they stand.
    Strict(Pat),
    /// This, of the children without blank strings.
    Loose(Pat),
}
