//! Text in both sides of an interleave.

ghost use Rattle.std.specs.Prelude.{◌≡◌};
ghost use Rattle.rng_core.specs.Meaning.{pattern_of};
ghost use Rattle.rng_restrict.specs.Finding.{has_part, is_text_twice, texts_of, texts_of_either};

use rng_core::grammar::Pat;

/// Where text is in a pattern.
#[derive(Clone, Copy)]
pub(crate) struct Texts {
    /// It occurs there.
    pub(crate) occurs: bool,
    /// It occurs in both sides of an interleave that stands there.
    pub(crate) twice: bool,
}

/// There is none.
const NO_TEXT: Texts = Texts {
    occurs: false,
    twice: false,
};

impl Texts {
    /// Where text is in either of two patterns.
    fn or(self, other: Texts) -> Texts
        ensures { result ≡ texts_of_either self other }
    {
        Texts {
            occurs: self.occurs || other.occurs,
            twice: self.twice || other.twice,
        }
    }
}

/// Where text is in a pattern.
fn texts_in(pattern: &Pat) -> Texts
    ensures { result ≡ texts_of (pattern_of pattern.now) }
{
    match pattern {
        Pat::NotAllowed => NO_TEXT,
        Pat::Empty => NO_TEXT,
        Pat::Typed(_, _) => NO_TEXT,
        Pat::Value(_, _) => NO_TEXT,
        Pat::Ref(_) => NO_TEXT,
        Pat::Text => Texts {
            occurs: true,
            twice: false,
        },
        Pat::List(body) => Texts {
            occurs: false,
            twice: texts_in(body).twice,
        },
        Pat::Attribute(_, body) => Texts {
            occurs: false,
            twice: texts_in(body).twice,
        },
        Pat::OneOrMore(body) => texts_in(body),
        Pat::Choice(a, b) => texts_in(a).or(texts_in(b)),
        Pat::Group(a, b) => texts_in(a).or(texts_in(b)),
        Pat::Interleave(a, b) => {
            let first = texts_in(a);
            let second = texts_in(b);
            let both = first.occurs && second.occurs;
            Texts {
                occurs: first.occurs || second.occurs,
                twice: both || first.twice || second.twice,
            }
        }
    }
}

/// Whether text occurs in both sides of an interleave that stands in a pattern.
pub(crate) fn has_text_twice(pattern: &Pat) -> bool
    ensures { result ≡ has_part is_text_twice (pattern_of pattern.now) }
{
    texts_in(pattern).twice
}
