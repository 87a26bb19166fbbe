//! Prohibited paths.

ghost use Rattle.std.specs.Prelude.{◌≡◌};
ghost use Rattle.rng_core.specs.Meaning.{pattern_of};
ghost use Rattle.rng_restrict.specs.Finding.{has_part, begins_path, is_outside_start, parts_of, parts_of_either};

use rng_core::grammar::Pat;

/// Which of these stand in a pattern.
#[derive(Clone, Copy)]
pub(crate) struct Parts {
    /// An attribute.
    pub(crate) attribute: bool,
    /// What mustn't stand below an attribute.
    pub(crate) outside_attributes: bool,
    /// What mustn't stand below a list.
    pub(crate) outside_lists: bool,
    /// What mustn't stand below a oneOrMore: a group or an interleave with an attribute in it.
    pub(crate) attribute_group: bool,
    /// A prohibited path.
    pub(crate) path: bool,
}

/// None of them.
const NOTHING: Parts = Parts {
    attribute: false,
    outside_attributes: false,
    outside_lists: false,
    attribute_group: false,
    path: false,
};

impl Parts {
    /// What stands in either of two patterns.
    fn or(self, other: Parts) -> Parts
        ensures { result ≡ parts_of_either self other }
    {
        Parts {
            attribute: self.attribute || other.attribute,
            outside_attributes: self.outside_attributes || other.outside_attributes,
            outside_lists: self.outside_lists || other.outside_lists,
            attribute_group: self.attribute_group || other.attribute_group,
            path: self.path || other.path,
        }
    }
}

/// What stands in a pattern.
pub(crate) fn parts_in(pattern: &Pat) -> Parts
    ensures { result ≡ parts_of (pattern_of pattern.now) }
{
    match pattern {
        Pat::NotAllowed => NOTHING,
        Pat::Empty => NOTHING,
        Pat::Typed(_, _) => NOTHING,
        Pat::Value(_, _) => NOTHING,
        Pat::Text => Parts {
            outside_lists: true,
            ..NOTHING
        },
        Pat::Ref(_) => Parts {
            outside_attributes: true,
            outside_lists: true,
            ..NOTHING
        },
        Pat::List(body) => {
            let below = parts_in(body);
            Parts {
                outside_lists: true,
                path: below.outside_lists || below.path,
                ..below
            }
        }
        Pat::Attribute(_, body) => {
            let below = parts_in(body);
            Parts {
                attribute: true,
                outside_attributes: true,
                outside_lists: true,
                path: below.outside_attributes || below.path,
                ..below
            }
        }
        Pat::OneOrMore(body) => {
            let below = parts_in(body);
            Parts {
                path: below.attribute_group || below.path,
                ..below
            }
        }
        Pat::Choice(a, b) => parts_in(a).or(parts_in(b)),
        Pat::Group(a, b) => {
            let below = parts_in(a).or(parts_in(b));
            Parts {
                attribute_group: below.attribute || below.attribute_group,
                ..below
            }
        }
        Pat::Interleave(a, b) => {
            let below = parts_in(a).or(parts_in(b));
            Parts {
                outside_lists: true,
                attribute_group: below.attribute || below.attribute_group,
                ..below
            }
        }
    }
}

/// Whether a prohibited path stands in a pattern.
pub(crate) fn has_path(pattern: &Pat) -> bool
    ensures { result ≡ has_part begins_path (pattern_of pattern.now) }
{
    parts_in(pattern).path
}

/// Whether a pattern stands in the start that mustn't.
pub(crate) fn has_start_path(start: &Pat) -> bool
    ensures { result ≡ has_part is_outside_start (pattern_of start.now) }
{
    match start {
        Pat::NotAllowed => false,
        Pat::Ref(_) => false,
        Pat::Choice(a, b) => has_start_path(a) || has_start_path(b),
        Pat::Empty => true,
        Pat::Text => true,
        Pat::Typed(_, _) => true,
        Pat::Value(_, _) => true,
        Pat::List(_) => true,
        Pat::Attribute(_, _) => true,
        Pat::OneOrMore(_) => true,
        Pat::Group(_, _) => true,
        Pat::Interleave(_, _) => true,
    }
}
