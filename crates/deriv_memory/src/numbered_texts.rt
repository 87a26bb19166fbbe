//! Texts by their numbers, and their numbers by the texts.
//!
//! Numbers are looked up in order and not by hash: a hash whose seed is fixed maps alike what somebody picks for it, and then each
//! text that is looked for is compared with all others.

ghost use Rattle.std.specs.Prelude.{◌≡◌, ℕ, [], ◌∷◌, ◌++◌, length, Some, IfSome, IfNone, IfOk, OnOk, OnErr};
ghost use Rattle.deriv_memory.specs.Remembered.{AreOnce, IsAtMostOneMore, IsText};
ghost use Rattle.deriv_memory.specs.Texts.{PutsAt};

use nx_base::memory::NoMemory;
use std::alloc::Global;
use std::collections::BTreeMap;
use std::marker::Model;

/// Texts, no two the same. A text's number is its place.
#[derive(Drop)]
pub struct Texts {
    texts: Vec<Vec<u8>>,
    numbers: BTreeMap<Vec<u8>, usize>,
}

impl Model for Texts {
    ghost use Rattle.std.specs.Prelude.{List, ℕ};
    ghost use Rattle.deriv_memory.specs.Texts.{texts_in, AreNumbered};

    ghost Value = { List (List ℕ) };

    ghost view = { λ s. texts_in s.texts.items };

    ghost invariant = { λ s. AreNumbered (texts_in s.texts.items) s.numbers };
}

// Puts a number under a text.
fn put(numbers: &mut BTreeMap<Vec<u8>, usize>, text: Vec<u8>, number: usize) -> Result<(), NoMemory>
    ensures ok { OnOk result (PutsAt text.items number numbers.old numbers.new) }
    ensures err { OnErr result (numbers.new.entries ≡ numbers.old.entries) }
{
    numbers.insert(text, number)?;
    Ok(())
}

impl Texts {
    /// No texts.
    pub(crate) fn new(alloc: Global) -> Texts
        ensures { result ≡ [] }
    {
        Texts {
            texts: Vec::new(alloc),
            numbers: BTreeMap::new(alloc),
        }
    }

    /// How many there are.
    pub(crate) fn len(&self) -> usize
        ensures { result ≡ length self.now }
    {
        self.texts.len()
    }

    /// The text of a number, if there is one.
    #[inline(always)]
    pub(crate) fn get(&self, number: usize) -> Option<&[u8]>
        ensures once { AreOnce self.now }
        ensures text { IfSome result (λ text. IsText self.now text.now number) }
    {
        match self.texts.as_slice().get(number) {
            Some(text) => Some(text.as_slice()),
            None => None,
        }
    }

    /// The number of a text, if it is there.
    pub(crate) fn number(&self, text: &[u8]) -> Option<usize>
        ensures once { AreOnce self.now }
        ensures found { IfSome result (IsText self.now text.now) }
        ensures none { IfNone result ((i : ℕ) → IsText self.now text.now i → ⊥) }
    {
        self.numbers.get(text).copied()
    }

    /// Adds a text that isn't there, and answers its number.
    pub(crate) fn push(&mut self, alloc: Global, text: &[u8]) -> Result<usize, NoMemory>
        requires { (i : ℕ) → IsText self.old text.now i → ⊥ }
        ensures once { AreOnce self.new }
        ensures only { IsAtMostOneMore self.old self.new text.now }
        ensures made { OnOk result (self.new ≡ self.old ++ text.now ∷ []) }
        ensures number { IfOk result (IsText self.new text.now) }
        ensures err { OnErr result (self.new ≡ self.old) }
    {
        let number = self.texts.len();
        let key = Vec::from_slice(alloc, text)?;
        self.texts.push(Vec::from_slice(alloc, text)?)?;
        match put(&mut self.numbers, key, number) {
            Ok(()) => Ok(number),
            Err(error) => {
                self.texts.pop();
                Err(error)
            }
        }
    }
}
