//! Names of open elements.

ghost use Rattle.std.specs.Prelude.{◌≡◌, IfOk, IfSome};
ghost use Rattle.std.specs.Rc.{rc_slice_items};
ghost use Rattle.nx_recover.specs.OpenNames.{name_of};

use nx_base::equal::Equal;
use nx_base::memory::NoMemory;
use nx_base::name::Name;
use nx_base::sequence::{Bytes, Sequence, TryCopy};
use nx_events::name_bytes::NameBytes;
use nx_events::short_bytes::ShortBytes;
use std::alloc::Global;
use std::marker::Model;
use std::rc::{Rc, RcSlice};

/// A name in a namespace, which copies share. A short local part stands in it, without memory of its own.
#[derive(Drop)]
pub(crate) struct SharedName {
    /// In one place for many names: an element's is mostly that of the element around it.
    ns: RcSlice<u8>,
    local: NameBytes,
}

/// Where the name of an open element stands.
#[derive(Drop)]
pub(crate) enum Held {
    /// In the value itself: the local part of a name in no namespace, as most names are, where it is short.
    Short(ShortBytes),
    /// In one place for all copies: the local part of a long name in no namespace.
    Long(RcSlice<u8>),
    /// In one place for all copies.
    InNamespace(Rc<SharedName>),
}

/// The name of an open element. States are kept by the ten thousand, and each is a copy of another: so a copy of a name takes no memory, and
/// a name has three words where it stands. To a contract it is the name.
#[derive(Drop)]
pub struct OpenName {
    alloc: Global,
    held: Held,
}

impl Model for OpenName {
    ghost use Rattle.nx_base.specs.declared.name.Name.{Name};
    ghost use Rattle.nx_recover.specs.OpenNames.{name_of};

    ghost Value = { Name };

    ghost view = { λ name. name_of name.held };
}

// A list of these bytes.
fn list_of(alloc: Global, bytes: &[u8]) -> Result<Bytes, NoMemory>
    ensures { IfOk result (λ list. list ≡ bytes.now) }
{
    Ok(Sequence::from_vec(Vec::from_slice(alloc, bytes)?))
}

// A namespace: that of the name of the element around, where it is the same, or a copy.
fn share_ns(alloc: Global, ns: &[u8], outer: Option<&OpenName>) -> Result<RcSlice<u8>, NoMemory>
    ensures { IfOk result (λ shared. rc_slice_items shared ≡ ns.now) }
{
    if let Some(around) = outer {
        if let Held::InNamespace(name) = &around.held {
            if name.ns.as_slice() == ns {
                return Ok(name.ns.clone()?);
            }
        }
    }
    Ok(RcSlice::from_slice(alloc, ns)?)
}

// Where a name stands that isn't short, or is in a namespace.
fn share(alloc: Global, name: &Name, outer: Option<&OpenName>) -> Result<Held, NoMemory>
    ensures { IfOk result (λ held. name_of held ≡ name.now) }
{
    if name.ns.is_empty() {
        return Ok(Held::Long(RcSlice::from_slice(alloc, name.local.as_slice())?));
    }
    let ns = share_ns(alloc, name.ns.as_slice(), outer)?;
    let local = NameBytes::of(alloc, name.local.as_slice())?;
    Ok(Held::InNamespace(Rc::new(alloc, SharedName { ns, local })?))
}

impl OpenName {
    /// This name, if it stands in the value itself.
    // Each start tag that is admitted asks for one.
    #[inline(always)]
    pub(crate) fn short(alloc: Global, name: &Name) -> Option<OpenName>
        ensures { IfSome result (λ short. short ≡ name.now) }
    {
        if !name.ns.is_empty() {
            return None;
        }
        let local = ShortBytes::of(name.local.as_slice())?;
        Some(OpenName {
            alloc,
            held: Held::Short(local),
        })
    }

    /// This name, in one place for all copies. Where the name of the element around it has its namespace, that is shared, too; no
    /// clause says so.
    pub(crate) fn shared(
        alloc: Global,
        name: &Name,
        outer: Option<&OpenName>,
    ) -> Result<OpenName, NoMemory>
        ensures { IfOk result (λ shared. shared ≡ name.now) }
    {
        Ok(OpenName {
            alloc,
            held: share(alloc, name, outer)?,
        })
    }

    // Its namespace, empty for none.
    fn ns(&self) -> &[u8]
        ensures { result.now ≡ self.now.ns }
    {
        match &self.held {
            Held::Short(_) => &[],
            Held::Long(_) => &[],
            Held::InNamespace(name) => name.ns.as_slice(),
        }
    }

    // Its local part.
    fn local(&self) -> &[u8]
        ensures { result.now ≡ self.now.local }
    {
        match &self.held {
            Held::Short(local) => local.as_slice(),
            Held::Long(local) => local.as_slice(),
            Held::InNamespace(name) => name.local.as_slice(),
        }
    }

    /// The same name.
    pub(crate) fn to_name(&self) -> Result<Name, NoMemory>
        ensures { IfOk result (λ name. name ≡ self.now) }
    {
        Ok(Name {
            ns: list_of(self.alloc, self.ns())?,
            local: list_of(self.alloc, self.local())?,
        })
    }
}

impl TryCopy for OpenName {
    // States are copied by the ten thousand, and these are most of them.
    #[inline(always)]
    fn copy(&self) -> Result<OpenName, NoMemory> {
        match &self.held {
            Held::Short(local) => Ok(OpenName {
                alloc: self.alloc,
                held: Held::Short(local.duplicate()),
            }),
            Held::Long(local) => Ok(OpenName {
                alloc: self.alloc,
                held: Held::Long(local.clone()?),
            }),
            Held::InNamespace(name) => Ok(OpenName {
                alloc: self.alloc,
                held: Held::InNamespace(name.clone()?),
            }),
        }
    }
}

impl Equal for OpenName {
    fn equals(&self, other: &OpenName) -> bool {
        self.local() == other.local() && self.ns() == other.ns()
    }
}
