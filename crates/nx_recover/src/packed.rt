//! Open elements as the levels keep them.

ghost use Rattle.std.specs.Prelude.{◌≡◌, IfOk, IfSome};
ghost use Rattle.nx_recover.specs.declared.levels.Open.TheVariants.{In};

use crate::levels::Open;
use crate::open_name::OpenName;
use nx_base::memory::NoMemory;
use nx_base::name::Name;
use std::alloc::Global;
use std::marker::Model;
use std::rc::Rc;

/// The first element of a frame of its own, and the frame that goes on behind it.
#[derive(Drop)]
pub(crate) struct Beginning<S> {
    pub(crate) name: OpenName,
    pub(crate) around: Option<S>,
}

/// Where an open element stands.
#[derive(Drop)]
pub(crate) enum Held<S> {
    In(OpenName),
    /// In one place for all copies: few elements begin a frame, and each element of a list has the room of the largest.
    Begins(Rc<Beginning<S>>),
    Lost(Option<S>),
}

/// An open element, in four words where a frame's state is a number: states are kept by the ten thousand, and open elements are most of
/// them. To a contract it is the element.
#[derive(Drop)]
pub struct Packed<S> {
    pub(crate) held: Held<S>,
}

impl<S> Model for Packed<S> {
    ghost use Rattle.nx_recover.specs.declared.levels.Open.{Open};
    ghost use Rattle.nx_recover.specs.Packing.{open_of};

    ghost Value = { Open S };

    ghost view = { λ p. open_of p.held };
}

// The name of an element that doesn't stand in the value itself: one in a namespace, or a long one. Out of line, so that the others set
// up no frame for it.
#[inline(never)]
fn shared_name<S: Drop>(
    alloc: Global,
    name: &Name,
    outer: Option<&Packed<S>>,
) -> Result<OpenName, NoMemory>
    ensures { IfOk result (λ kept. kept ≡ name.now) }
{
    let outer_name = match outer {
        Some(element) => element.name(),
        None => None,
    };
    OpenName::shared(alloc, name, outer_name)
}

/// This name, as an element keeps it that begins in the outer one, if there is one.
#[inline(always)]
pub(crate) fn name_inside<S: Drop>(
    alloc: Global,
    name: &Name,
    outer: Option<&Packed<S>>,
) -> Result<OpenName, NoMemory>
    ensures { IfOk result (λ kept. kept ≡ name.now) }
{
    match OpenName::short(alloc, name) {
        Some(short) => Ok(short),
        None => shared_name(alloc, name, outer),
    }
}

impl<S: Drop> Packed<S> {
    /// An element that goes on in the frame around it.
    #[inline(always)]
    pub(crate) fn inside(name: OpenName) -> Packed<S>
        ensures { result ≡ In name }
    {
        Packed {
            held: Held::In(name),
        }
    }

    /// This element.
    pub(crate) fn of(alloc: Global, element: Open<S>) -> Result<Packed<S>, NoMemory>
        ensures { IfOk result (λ packed. packed ≡ element) }
    {
        let held = match element {
            Open::In(name) => Held::In(name),
            Open::Begins(name, around) => {
                Held::Begins(Rc::new(alloc, Beginning { name, around })?)
            }
            Open::Lost(around) => Held::Lost(around),
        };
        Ok(Packed { held })
    }

    // Its name, if one is kept. No clause says when: it is asked for what can be shared.
    fn name(&self) -> Option<&OpenName> {
        match &self.held {
            Held::In(name) => Some(name),
            Held::Begins(beginning) => Some(&beginning.name),
            Held::Lost(_) => None,
        }
    }

    /// Its name, if it goes on in the frame around it.
    pub(crate) fn name_in_frame(&self) -> Option<&OpenName>
        ensures { IfSome result (λ name. self.now ≡ In name.now) }
    {
        match &self.held {
            Held::In(name) => Some(name),
            Held::Begins(_) => None,
            Held::Lost(_) => None,
        }
    }
}
