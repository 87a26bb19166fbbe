//! Whether the text of a string can matter to a state, beside whether it is blank.

ghost use Rattle.std.specs.Prelude.{◌≡◌, ◌<◌, length};
ghost use Rattle.deriv_states.specs.Places.{IsThere, outer_in, state_in, way_in};
ghost use Rattle.deriv_states.specs.Telling as s;
ghost use Rattle.deriv_states.specs.Telling.{TextsAreAlike};

use crate::around::Around;
use crate::branch::{Branch, Row};
use crate::states::States;
use nx_base::name::Name;

impl States {
    /// Whether strings are told apart by what may come here.
    fn outer_tells(&self, here: usize) -> bool
        requires { here < length self.now.outers }
        ensures { result ≡ s.outer_tells (outer_in self.now.outers here) }
    {
        match self.around(here) {
            Around::Document(rest) => self.node_tells(rest),
            Around::Inside { strict, loose, .. } => {
                self.node_tells(strict) || self.node_tells(loose)
            }
            Around::OneOf(this, other) => self.outer_tells(this) || self.outer_tells(other),
        }
    }

    /// Whether a way tells strings apart.
    fn way_tells(&self, way: Branch) -> bool
        requires { IsThere self.now way }
        ensures { result ≡ s.way_tells (way_in self.now way) }
    {
        match way {
            Branch::Among(here) => self.outer_tells(here),
            Branch::InTag(_, _) => false,
        }
    }

    /// Whether a way tells values of attributes of the name apart.
    fn way_tells_of(&self, name: &Name, way: Branch) -> bool
        requires { IsThere self.now way }
        ensures { result ≡ s.way_tells_of name.now (way_in self.now way) }
    {
        match way {
            Branch::Among(_) => false,
            Branch::InTag(content, _) => self.node_tells_values(name, content),
        }
    }

    /// Whether a way of the state tells strings apart. Where none does, the states behind two strings are the same, if
    /// both are blank or none is.
    pub fn tells_texts(&self, state: usize) -> bool
        requires { state < length self.now.states }
        ensures { result ≡ s.tells_texts (state_in self.now.states state) }
    {
        match self.row(state) {
            Row::End => false,
            Row::Way(one, more) => self.way_tells(one) || self.tells_texts(more),
        }
    }

    /// Whether a way of the state tells values of attributes of the name apart.
    pub fn tells_values_of(&self, name: &Name, state: usize) -> bool
        requires { state < length self.now.states }
        ensures { result ≡ s.tells_values_of name.now (state_in self.now.states state) }
    {
        match self.row(state) {
            Row::End => false,
            Row::Way(one, more) => {
                self.way_tells_of(name, one) || self.tells_values_of(name, more)
            }
        }
    }
}

/// A residual that tells no strings apart is the same behind all of one kind, and so with values of attributes. Nothing here runs.
pub fn texts_are_alike()
    ensures { TextsAreAlike }
{}
