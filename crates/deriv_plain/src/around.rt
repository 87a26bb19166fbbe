//! What is left around an open element.

ghost use Rattle.std.specs.Prelude.{◌≡◌, IfOk};
ghost use Rattle.rng_core.specs.Meaning.{pattern_of};
ghost use Rattle.rng_kept.specs.Merging.{same_outer};
ghost use Rattle.rng_kept.specs.Residuals as residual;
ghost use Rattle.deriv_plain.specs.Ways.{outer_of};

use deriv_pattern::small::same_pattern;
use nx_base::memory::NoMemory;
use rng_core::grammar::Pat;
use std::alloc::Global;
use std::rc::Rc;

/// What is left of the children of an open element, and around it, out to the document.
///
/// What lies outside grows with the depth of the document, so states share it: behind an element's start there is one node
/// more, and what was there before stays where it is. It is let go in a loop.
pub enum Around {
    /// What is left outside of the root.
    Document(Pat),
    /// What is left of the children as they stand, of the children without blank strings, and whether there may be none; and
    /// what is left around the element.
    Inside {
        strict: Pat,
        loose: Pat,
        void: bool,
        outer: Rc<Around>,
    },
    /// What is left in one way, or in another.
    OneOf(Rc<Around>, Rc<Around>),
}

// What others share stays.
impl Drop for Around {
    fn drop(mut self) {
        loop {
            match self {
                Around::Document(_) => return,
                Around::Inside {
                    strict: _,
                    loose: _,
                    void: _,
                    outer,
                } => {
                    let Some(next) = Rc::into_inner(outer) else {
                        return;
                    };
                    self = next;
                }
                Around::OneOf(this, other) => {
                    drop(other);
                    let Some(next) = Rc::into_inner(this) else {
                        return;
                    };
                    self = next;
                }
            }
        }
    }
}

impl Around {
    /// Outside of the root.
    pub(crate) fn document(alloc: Global, rest: Pat) -> Result<Rc<Around>, NoMemory>
        ensures { IfOk result (λ made. outer_of made.value ≡ residual.document (pattern_of rest)) }
    {
        Ok(Rc::new(alloc, Around::Document(rest))?)
    }

    /// Inside of an element; what lies around it is shared.
    pub(crate) fn inside(
        alloc: Global,
        strict: Pat,
        loose: Pat,
        void: bool,
        outer: &Rc<Around>,
    ) -> Result<Rc<Around>, NoMemory>
        ensures { IfOk result (λ made. outer_of made.value
            ≡ residual.inside (pattern_of strict) (pattern_of loose) void (outer_of outer.now.value)) }
    {
        let outer = outer.clone()?;
        let around = Around::Inside {
            strict,
            loose,
            void,
            outer,
        };
        Ok(Rc::new(alloc, around)?)
    }

    /// In one way, or in another; both are shared.
    pub(crate) fn one_of(
        alloc: Global,
        this: &Rc<Around>,
        other: &Rc<Around>,
    ) -> Result<Rc<Around>, NoMemory>
        ensures { IfOk result (λ made. outer_of made.value ≡ residual.one_of (outer_of this.now.value) (outer_of other.now.value)) }
    {
        let this = this.clone()?;
        let other = other.clone()?;
        Ok(Rc::new(alloc, Around::OneOf(this, other))?)
    }

    /// Whether both stand for the same. It goes out as far as they do, so it is linear in the depth of the document.
    pub(crate) fn same(&self, other: &Around) -> bool
        ensures { result ≡ same_outer (outer_of self.now) (outer_of other.now) }
    {
        let mut left = self;
        let mut right = other;
        loop {
            match (left, right) {
                (Around::Document(rest), Around::Document(other_rest)) => {
                    return same_pattern(rest, other_rest);
                }
                (Around::Document(_), Around::Inside { .. }) => return false,
                (Around::Document(_), Around::OneOf(_, _)) => return false,
                (Around::Inside { .. }, Around::Document(_)) => return false,
                (Around::Inside { .. }, Around::OneOf(_, _)) => return false,
                (Around::OneOf(_, _), Around::Document(_)) => return false,
                (Around::OneOf(_, _), Around::Inside { .. }) => return false,
                (Around::OneOf(this, rest), Around::OneOf(other_this, other_rest)) => {
                    if !this.same(other_this) {
                        return false;
                    }
                    left = rest;
                    right = other_rest;
                }
                (
                    Around::Inside {
                        strict,
                        loose,
                        void,
                        outer,
                    },
                    Around::Inside {
                        strict: other_strict,
                        loose: other_loose,
                        void: other_void,
                        outer: other_outer,
                    },
                ) => {
                    if *void != *other_void {
                        return false;
                    }
                    if !same_pattern(strict, other_strict) || !same_pattern(loose, other_loose) {
                        return false;
                    }
                    left = outer;
                    right = other_outer;
                }
            }
        }
    }
}
