//! Calls that are remembered.

ghost use Rattle.std.specs.Prelude.{◌≡◌, ◌++◌};
ghost use Rattle.std.specs.Cmp.{partial_equiv_from_equiv};
ghost use Rattle.std.specs.Hash as fed;
ghost use Rattle.deriv_memory.specs.AtHand.{is_named};
ghost use Rattle.deriv_memory.specs.Calls.{form_of, state_of, ns_of, local_of, same_asked, calls_laws, calls_hash};

use std::hash::{Hash, Hasher};

/// The number of the form `Enter`.
pub(crate) const ENTER: u8 = 0;

/// The number of the form `BlankValue`.
pub(crate) const BLANK_VALUE: u8 = 5;

/// The number of the form `SolidValue`.
pub(crate) const SOLID_VALUE: u8 = 6;

/// A call on a state, by the state's number. A name is two numbers: that of its namespace and that of its local part. Strings stand
/// here by whether they are blank alone: such a call is noted where all strings of its kind have one answer.
#[derive(Clone, Copy, Debug)]
pub enum Asked {
    /// Behind the start of an element of this name.
    Enter(usize, usize, usize),
    /// Behind the end of a start tag.
    TagEnd(usize),
    /// Behind the end of an element.
    Leave(usize),
    /// Behind a blank string.
    Blank(usize),
    /// Behind a string that isn't blank.
    Solid(usize),
    /// Behind an attribute of this name whose value is blank.
    BlankValue(usize, usize, usize),
    /// Behind an attribute of this name whose value isn't blank.
    SolidValue(usize, usize, usize),
}

impl Asked {
    /// A number for each form. Only those that slots compare have names.
    pub(crate) fn form(&self) -> u8
        ensures { result ≡ form_of self.now }
    {
        match self {
            Asked::Enter(_, _, _) => ENTER,
            Asked::TagEnd(_) => 1,
            Asked::Leave(_) => 2,
            Asked::Blank(_) => 3,
            Asked::Solid(_) => 4,
            Asked::BlankValue(_, _, _) => BLANK_VALUE,
            Asked::SolidValue(_, _, _) => SOLID_VALUE,
        }
    }

    /// The state that is asked.
    pub fn state(&self) -> usize
        ensures { result ≡ state_of self.now }
    {
        match self {
            Asked::Enter(state, _, _) => *state,
            Asked::TagEnd(state) => *state,
            Asked::Leave(state) => *state,
            Asked::Blank(state) => *state,
            Asked::Solid(state) => *state,
            Asked::BlankValue(state, _, _) => *state,
            Asked::SolidValue(state, _, _) => *state,
        }
    }

    /// Whether there is a name.
    pub(crate) fn has_name(&self) -> bool
        ensures { result ≡ is_named self.now }
    {
        match self {
            Asked::Enter(_, _, _) => true,
            Asked::BlankValue(_, _, _) => true,
            Asked::SolidValue(_, _, _) => true,
            _ => false,
        }
    }

    /// The number of the name's namespace; 0 where there is no name.
    pub(crate) fn ns(&self) -> usize
        ensures { result ≡ ns_of self.now }
    {
        match self {
            Asked::Enter(_, ns, _) => *ns,
            Asked::BlankValue(_, ns, _) => *ns,
            Asked::SolidValue(_, ns, _) => *ns,
            _ => 0,
        }
    }

    /// The number of the name's local part; 0 where there is no name.
    pub(crate) fn local(&self) -> usize
        ensures { result ≡ local_of self.now }
    {
        match self {
            Asked::Enter(_, _, local) => *local,
            Asked::BlankValue(_, _, local) => *local,
            Asked::SolidValue(_, _, local) => *local,
            _ => 0,
        }
    }
}

impl PartialEq for Asked {
    ghost eq = { same_asked };

    ghost laws = { partial_equiv_from_equiv calls_laws };

    fn eq(&self, other: &Asked) -> bool {
        self.form() == other.form()
            && self.state() == other.state()
            && self.ns() == other.ns()
            && self.local() == other.local()
    }
}

impl Eq for Asked {
    ghost laws = { calls_laws };
}

impl Hash for Asked {
    ghost hash_input = { λ a. fed.u8 (form_of a) ++ fed.usize (state_of a) ++ fed.usize (ns_of a) ++ fed.usize (local_of a) };

    ghost respects_eq = { calls_hash };

    fn hash<H: Hasher>(&self, state: &mut H) {
        state.write_u8(self.form());
        state.write_usize(self.state());
        state.write_usize(self.ns());
        state.write_usize(self.local());
    }
}
