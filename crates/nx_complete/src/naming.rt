//! Names that are asked for.

ghost use Rattle.std.specs.Prelude.{◌≡◌, ◌&&◌, IfOk};
ghost use Rattle.std.specs.List.{list_any};
ghost use Rattle.nx_base.specs.Names.{same_name};
ghost use Rattle.nx_complete.specs.Asking.{is_among, others_of, asks};

use nx_base::memory::NoMemory;
use nx_base::name::{Name, Names};
use rng_live::matcher::Matcher;
use std::alloc::Global;

/// What is named.
#[derive(Drop)]
pub(crate) enum Naming {
    Element,
    /// An attribute beside those that have these names.
    Attribute(Names),
}

impl Naming {
    /// The names of the attributes so far.
    pub(crate) fn others(&self) -> &[Name]
        ensures { result.now ≡ others_of self.now }
    {
        match self {
            Naming::Element => &[],
            Naming::Attribute(others) => others.as_slice(),
        }
    }
}

// Whether the two are one.
fn same_name(a: &Name, b: &Name) -> bool
    ensures { result ≡ same_name a.now b.now }
{
    a.ns.as_slice() == b.ns.as_slice() && a.local.as_slice() == b.local.as_slice()
}

/// Whether a name is one of these.
pub fn is_among(others: &[Name], name: &Name) -> bool
    ensures { result ≡ is_among others.now name.now }
{
    others.iter().any(|other| same_name(other, name))
}

/// Whether the name may stand here.
#[tactic(auto, using(crate::proofs::Asked::some_given))]
pub(crate) fn passes<M: Matcher>(
    alloc: Global,
    matcher: &mut M,
    here: &M::State,
    naming: &Naming,
    name: &Name,
) -> Result<bool, NoMemory>
    requires { M.is_state matcher.old here.now }
    ensures later { M.later matcher.old matcher.new }
    ensures passes { IfOk result (λ b. b
        ≡ asks (M.language matcher.old).definitions naming.now (M.means matcher.old here.now) name.now) }
{
    match naming {
        Naming::Element => {
            let entered = matcher.enter(alloc, here, name)?;
            Ok(entered.is_some())
        }
        Naming::Attribute(others) => {
            if is_among(others.as_slice(), name) {
                return Ok(false);
            }
            let had = matcher.attribute_any(alloc, here, name)?;
            Ok(had.is_some())
        }
    }
}
