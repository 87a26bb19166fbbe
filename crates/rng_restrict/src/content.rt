//! Content types.

ghost use Rattle.std.specs.Prelude.{◌≡◌};
ghost use Rattle.rng_core.specs.Meaning.{pattern_of};
ghost use Rattle.rng_restrict.specs.Contents.{greater as greater_of};
ghost use Rattle.rng_restrict.specs.Finding.{are_groupable, grouped as grouped_types, chosen as chosen_types};
ghost use Rattle.rng_restrict.specs.Finding.{content_of, is_mixture as is_mixture_of};

use rng_core::grammar::Pat;

/// What an element's content is made of (ISO/IEC 19757-2, section 10.3).
#[derive(Clone, Copy)]
pub enum Content {
    /// Attributes alone.
    Empty,
    /// Elements and text.
    Complex,
    /// One string.
    Simple,
}

impl Content {
    /// Whether content of the one type can stand beside content of the other.
    fn is_groupable(self, other: Content) -> bool
        ensures { result ≡ are_groupable self other }
    {
        match (self, other) {
            (Content::Empty, _) => true,
            (_, Content::Empty) => true,
            (Content::Complex, Content::Complex) => true,
            (Content::Complex, Content::Simple) => false,
            (Content::Simple, Content::Complex) => false,
            (Content::Simple, Content::Simple) => false,
        }
    }

    /// The greater of two types.
    fn greater(self, other: Content) -> Content
        ensures { result ≡ greater_of self other }
    {
        match (self, other) {
            (Content::Empty, _) => other,
            (Content::Simple, _) => Content::Simple,
            (Content::Complex, Content::Empty) => Content::Complex,
            (Content::Complex, Content::Complex) => Content::Complex,
            (Content::Complex, Content::Simple) => Content::Simple,
        }
    }
}

/// The type of two sides that stand beside one another.
fn grouped(a: Option<Content>, b: Option<Content>) -> Option<Content>
    ensures { result ≡ grouped_types a b }
{
    let first = a?;
    let second = b?;
    if first.is_groupable(second) {
        Some(first.greater(second))
    } else {
        None
    }
}

/// The type of two sides of a choice.
fn chosen(a: Option<Content>, b: Option<Content>) -> Option<Content>
    ensures { result ≡ chosen_types a b }
{
    let first = a?;
    let second = b?;
    Some(first.greater(second))
}

/// The content type of a pattern, if it has one.
fn content_in(pattern: &Pat) -> Option<Content>
    ensures { result ≡ content_of (pattern_of pattern.now) }
{
    match pattern {
        Pat::NotAllowed => None,
        Pat::Empty => Some(Content::Empty),
        Pat::Text => Some(Content::Complex),
        Pat::Typed(_, _) => Some(Content::Simple),
        Pat::Value(_, _) => Some(Content::Simple),
        Pat::List(_) => Some(Content::Simple),
        Pat::Attribute(_, body) => match content_in(body) {
            Some(_) => Some(Content::Empty),
            None => None,
        },
        Pat::Ref(_) => Some(Content::Complex),
        Pat::OneOrMore(body) => {
            let content = content_in(body);
            grouped(content, content)
        }
        Pat::Choice(a, b) => chosen(content_in(a), content_in(b)),
        Pat::Group(a, b) => grouped(content_in(a), content_in(b)),
        Pat::Interleave(a, b) => grouped(content_in(a), content_in(b)),
    }
}

/// Whether an element's content is neither notAllowed nor of any type.
pub(crate) fn is_mixture(content: &Pat) -> bool
    ensures { result ≡ is_mixture_of (pattern_of content.now) }
{
    match content {
        Pat::NotAllowed => false,
        _ => content_in(content).is_none(),
    }
}
