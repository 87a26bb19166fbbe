//! What is needed at nodes, as far as it is kept.

ghost use Rattle.std.specs.Prelude.{◌≡◌, List, IfOk, IfSome, IsTrue, option_copied};
ghost use Rattle.rng_core.specs.Patterns.{Definition, Pattern};
ghost use Rattle.deriv_pool.specs.Kept.{AreKept, IsKept};

use deriv_pattern::needed::same_name;
use nx_base::memory::NoMemory;
use nx_base::name::Name;
use nx_base::sequence::TryCopy;
use rng_live::shared_names::SharedNames;
use std::alloc::Global;

/// Behind how many names no more nodes are kept: one or two megabytes of them.
const MOST: usize = 16_384;

/// How many bits tell the kind of a question.
const KIND_BITS: u32 = 12;

/// What is needed at a node up to an element of a name, or, without one, up to the end, in order; none where nothing can be skipped so.
#[derive(Drop)]
pub struct NeededThere {
    node: usize,
    skip: Option<Name>,
    names: Option<SharedNames>,
}

/// Answers of this form, up to some `MOST` names, and a place for each kind of questions. Where one stands is a guess: whoever takes it
/// looks at what is asked there, so a wrong guess makes no wrong answer, and no clause speaks of places.
#[derive(Drop)]
pub struct KeptNames {
    entries: Vec<NeededThere>,
    places: Vec<u32>,
    names: usize,
}

/// A name, or none, for oneself.
fn own_name(skip: Option<&Name>) -> Result<Option<Name>, NoMemory>
    ensures { IfOk result (λ copied. copied ≡ option_copied skip.entry) }
{
    match skip {
        Some(name) => Ok(Some(name.copy()?)),
        None => Ok(None),
    }
}

/// The same list of names, or none.
pub(crate) fn own_names(names: &Option<SharedNames>) -> Result<Option<SharedNames>, NoMemory>
    ensures { IfOk result (λ copied. copied ≡ names.now) }
{
    match names {
        Some(names) => Ok(Some(names.copy()?)),
        None => Ok(None),
    }
}

/// Whether what is kept was skipped to the same.
#[tactic(auto, using(crate::proofs::Kept::named_alike))]
fn is_skip(kept: &Option<Name>, skip: Option<&Name>) -> bool
    ensures { IsTrue result → kept.now ≡ option_copied skip.entry }
{
    match kept {
        Some(one) => match skip {
            Some(other) => same_name(one, other),
            None => false,
        },
        None => skip.is_none(),
    }
}

/// The kind of a question: its node, and of a name the length and two bytes.
fn kind_of(p: usize, skip: Option<&Name>) -> usize {
    let name = match skip {
        Some(name) => code_of(name.local.as_slice()),
        None => 0,
    };
    let node = u32::try_from(p).unwrap_or(0);
    // 2^32 parted by the golden ratio
    ((name ^ node).wrapping_mul(0x9E37_79B1) >> (u32::BITS - KIND_BITS)) as usize
}

/// A number of a text, the same for texts of one length that end alike.
fn code_of(text: &[u8]) -> u32 {
    match text.last_chunk::<4>() {
        Some(bytes) => u32::from_le_bytes(*bytes).wrapping_add(1),
        None => match text.last() {
            Some(byte) => *byte as u32 + 1,
            None => 1,
        },
    }
}

impl KeptNames {
    /// Nothing kept.
    pub(crate) fn new(alloc: Global) -> KeptNames
        ensures { (g : List Definition) → (nodes : List Pattern) → AreKept g nodes result.entries.items }
    {
        KeptNames {
            entries: Vec::new(alloc),
            places: Vec::new(alloc),
            names: 0,
        }
    }

    /// Whether so many are kept that no more are to be.
    fn are_many(&self) -> bool {
        self.names >= MOST
    }

    /// The place of an answer of this kind, if there is one.
    fn place_of(&self, kind: usize) -> u32 {
        match self.places.as_slice().get(kind) {
            Some(place) => *place,
            None => 0,
        }
    }

    /// What is needed at a node, if it is kept.
    pub(crate) fn of(&self, p: usize, skip: Option<&Name>) -> Option<&Option<SharedNames>>
        ensures { (g : List Definition) → (nodes : List Pattern) → AreKept g nodes self.now.entries.items
            → IfSome result (λ names. IsKept g nodes p (option_copied skip.entry) names.now) }
    {
        let first = self
            .entries
            .as_slice()
            .get(self.place_of(kind_of(p, skip)) as usize)?;
        if first.node != p {
            return None;
        }
        if is_skip(&first.skip, skip) {
            Some(&first.names)
        } else {
            None
        }
    }

    /// From now on what is of this kind is looked for at this place.
    fn put_place(&mut self, kind: usize, place: u32) -> Result<(), NoMemory>
        ensures { self.new.entries ≡ self.old.entries }
    {
        while self.places.len() <= kind {
            self.places.push(0)?;
        }
        if let Some(guess) = self.places.get_mut(kind) {
            *guess = place;
        }
        Ok(())
    }

    /// The place of what is kept next.
    fn next_place(&self) -> u32 {
        u32::try_from(self.entries.len()).unwrap_or(u32::MAX)
    }

    /// Counts the names of an answer that is to be kept.
    fn count(&mut self, names: &Option<SharedNames>)
        ensures { self.new.entries ≡ self.old.entries }
    {
        let more = match names {
            Some(names) => names.as_slice().len(),
            None => 0,
        };
        self.names = self.names.saturating_add(more).saturating_add(1);
    }

    /// Puts what is needed at a node behind the others.
    fn put(
        &mut self,
        p: usize,
        skip: Option<Name>,
        names: Option<SharedNames>,
    ) -> Result<(), NoMemory>
        ensures { (g : List Definition) → (nodes : List Pattern) → AreKept g nodes self.old.entries.items
            → IsKept g nodes p skip names → AreKept g nodes self.new.entries.items }
    {
        let entry = NeededThere {
            node: p,
            skip,
            names,
        };
        self.entries.push(entry)?;
        Ok(())
    }

    /// Keeps what is needed at a node, unless many are kept; NoMemory where there is none for it.
    pub(crate) fn keep(
        &mut self,
        p: usize,
        skip: Option<&Name>,
        names: &Option<SharedNames>,
    ) -> Result<(), NoMemory>
        ensures { (g : List Definition) → (nodes : List Pattern) → AreKept g nodes self.old.entries.items
            → IsKept g nodes p (option_copied skip.entry) names.now → AreKept g nodes self.new.entries.items }
    {
        if self.are_many() {
            return Ok(());
        }
        let place = self.next_place();
        self.put_place(kind_of(p, skip), place)?;
        self.count(names);
        let skip = own_name(skip)?;
        let names = own_names(names)?;
        self.put(p, skip, names)
    }
}
