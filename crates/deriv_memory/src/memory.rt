//! Texts and answers that are kept.

ghost use Rattle.std.specs.Prelude.{◌≡◌, ℕ, [], Some, None, Ok, Option, IfOk, IfSome, IfNone, OnOk, OnErr, IsTrue, true, false};
ghost use Rattle.deriv_memory.specs.declared.asked.Asked.{Asked as TheAsked};
ghost use Rattle.deriv_memory.specs.declared.asked.Asked.TheVariants as calls;
ghost use Rattle.deriv_memory.specs.AtHand.{is_named, said};
ghost use Rattle.deriv_memory.specs.Remembered.{noted, IsText, IsName, AreOnce, IsAtMostOneMore, AreAtMostTwoMore, LaterMemory, IsNoted};

use crate::asked::Asked;
use crate::at_hand::{AtHand, written};
use crate::guesses::Guesses;
use crate::numbered_texts::Texts;
use crate::text::same_text;
use indexmap::IndexMap;
use nx_base::memory::NoMemory;
use nx_base::name::Name;
use std::alloc::Global;
use std::marker::Model;

/// The parts of names, each once, and what calls answered. Nothing is taken out.
#[derive(Drop)]
pub struct Memory {
    texts: Texts,
    guesses: Guesses,
    answers: IndexMap<Asked, Option<usize>>,
    at_hand: AtHand,
}

impl Model for Memory {
    ghost use Rattle.deriv_memory.specs.AtHand.{AreNoted};
    ghost use Rattle.deriv_memory.specs.Remembered.{Remembered, AreOnce};

    ghost Value = { Remembered };

    ghost view = { λ m. record { texts = m.texts; answers = m.answers.entries } };

    ghost invariant = { λ m. AreOnce m.texts × AreNoted m.answers.entries m.at_hand };
}

impl Memory {
    /// Nothing kept, nothing noted.
    pub fn new(alloc: Global) -> Memory
        ensures texts { result.texts ≡ [] }
        ensures answers { (call : TheAsked) → noted result call ≡ None }
    {
        Memory {
            texts: Texts::new(alloc),
            guesses: Guesses::new(alloc),
            answers: IndexMap::new(alloc),
            at_hand: AtHand::new(alloc),
        }
    }

    // Whether a text is the one that has this number.
    #[inline(always)]
    fn has_number(&self, text: &[u8], number: usize) -> bool
        ensures once { AreOnce self.now.texts }
        ensures has { IsTrue result → IsText self.now.texts text.now number }
    {
        match self.texts.get(number) {
            Some(kept) => same_text(text, kept),
            None => false,
        }
    }

    /// The number of a text, if it is kept.
    #[inline(always)]
    pub fn text_number(&self, text: &[u8]) -> Option<usize>
        ensures once { AreOnce self.now.texts }
        ensures found { IfSome result (IsText self.now.texts text.now) }
        ensures none { IfNone result ((i : ℕ) → IsText self.now.texts text.now i → ⊥) }
    {
        let guess = self.guesses.of(text);
        if self.has_number(text, guess) {
            return Some(guess);
        }
        self.searched_text(text)
    }

    // The number of a text, by its order among them. Out of line, so that a text that is guessed sets up no frame for it.
    #[inline(never)]
    fn searched_text(&self, text: &[u8]) -> Option<usize>
        ensures once { AreOnce self.now.texts }
        ensures found { IfSome result (IsText self.now.texts text.now) }
        ensures none { IfNone result ((i : ℕ) → IsText self.now.texts text.now i → ⊥) }
    {
        self.texts.number(text)
    }

    /// The number of a text, which is kept where it is new.
    pub fn keep_text(&mut self, alloc: Global, text: &[u8]) -> Result<usize, NoMemory>
        ensures once { AreOnce self.new.texts }
        ensures later { LaterMemory self.old self.new }
        ensures answers { self.new.answers ≡ self.old.answers }
        ensures made { IfOk result (IsText self.new.texts text.now) }
        ensures only { IsAtMostOneMore self.old.texts self.new.texts text.now }
        ensures known { (number : ℕ) → IsText self.old.texts text.now number → (result ≡ Ok number) × (self.new ≡ self.old) }
    {
        match self.text_number(text) {
            Some(number) => Ok(number),
            None => self.add_text(alloc, text),
        }
    }

    /// The number of a text that isn't there, and is put last.
    fn add_text(&mut self, alloc: Global, text: &[u8]) -> Result<usize, NoMemory>
        requires { (i : ℕ) → IsText self.old.texts text.now i → ⊥ }
        ensures once { AreOnce self.new.texts }
        ensures later { LaterMemory self.old self.new }
        ensures answers { self.new.answers ≡ self.old.answers }
        ensures made { IfOk result (IsText self.new.texts text.now) }
        ensures only { IsAtMostOneMore self.old.texts self.new.texts text.now }
    {
        self.guesses.put(text, self.texts.len())?;
        let number = self.texts.push(alloc, text)?;
        Ok(number)
    }

    /// The numbers of a name's parts, if both are kept.
    #[inline(always)]
    pub fn number_of_name(&self, name: &Name) -> Option<(usize, usize)>
        ensures once { AreOnce self.now.texts }
        ensures found { IfSome result (IsName self.now.texts name.now) }
        ensures none { IfNone result ((ns local : ℕ) → IsName self.now.texts name.now (ns, local) → ⊥) }
    {
        let ns = self.text_number(name.ns.as_slice())?;
        let local = self.text_number(name.local.as_slice())?;
        Some((ns, local))
    }

    /// The numbers of a name's parts, which are kept where they are new.
    pub fn keep_name(&mut self, alloc: Global, name: &Name) -> Result<(usize, usize), NoMemory>
        ensures once { AreOnce self.new.texts }
        ensures later { LaterMemory self.old self.new }
        ensures answers { self.new.answers ≡ self.old.answers }
        ensures made { IfOk result (IsName self.new.texts name.now) }
        ensures only { AreAtMostTwoMore self.old.texts self.new.texts name.now }
        ensures known { (numbers : ℕ × ℕ) → IsName self.old.texts name.now numbers → (result ≡ Ok numbers) × (self.new ≡ self.old) }
    {
        let ns = self.keep_text(alloc, name.ns.as_slice())?;
        let local = self.keep_text(alloc, name.local.as_slice())?;
        Ok((ns, local))
    }

    /// The answer that was noted of a call, which may be that there is no state; none where nothing was noted. It is in line, so that
    /// the form of a call needs no look where it is known.
    #[inline(always)]
    pub fn recalled(&self, call: Asked) -> Option<Option<usize>>
        ensures { result ≡ noted self.now call }
    {
        match call {
            Asked::Enter(state, ns, local) => self.recalled_enter(state, ns, local),
            Asked::TagEnd(state) => self.recalled_tag_end(state),
            Asked::Leave(state) => self.recalled_leave(state),
            Asked::Blank(state) => self.recalled_blank(state),
            Asked::Solid(state) => self.recalled_solid(state),
            Asked::BlankValue(state, ns, local) => self.recalled_blank_value(state, ns, local),
            Asked::SolidValue(state, ns, local) => self.recalled_solid_value(state, ns, local),
        }
    }

    // The answer that was noted of the start of an element.
    #[inline(always)]
    fn recalled_enter(&self, state: usize, ns: usize, local: usize) -> Option<Option<usize>>
        ensures { result ≡ noted self.now (calls.Enter state ns local) }
    {
        match self.at_hand.entered_in_block(state, ns, local) {
            Some(answer) => Some(answer),
            None => self.recalled_enter_elsewhere(state, ns, local),
        }
    }

    // The same answer where no block has it. Out of line, as it is seldom asked.
    #[inline(never)]
    fn recalled_enter_elsewhere(
        &self,
        state: usize,
        ns: usize,
        local: usize,
    ) -> Option<Option<usize>>
        ensures { result ≡ noted self.now (calls.Enter state ns local) }
    {
        match self.at_hand.entered_in_slot(state, ns, local) {
            Some(answer) => Some(answer),
            None => self.searched(&Asked::Enter(state, ns, local)),
        }
    }

    // The answer that was noted of the end of a start tag.
    #[inline(always)]
    fn recalled_tag_end(&self, state: usize) -> Option<Option<usize>>
        ensures { result ≡ noted self.now (calls.TagEnd state) }
    {
        self.at_hand.tag_end(state)
    }

    // The answer that was noted of the end of an element.
    #[inline(always)]
    fn recalled_leave(&self, state: usize) -> Option<Option<usize>>
        ensures { result ≡ noted self.now (calls.Leave state) }
    {
        self.at_hand.leave(state)
    }

    // The answer that was noted of blank strings.
    #[inline(always)]
    fn recalled_blank(&self, state: usize) -> Option<Option<usize>>
        ensures { result ≡ noted self.now (calls.Blank state) }
    {
        self.at_hand.blank(state)
    }

    // The answer that was noted of other strings.
    #[inline(always)]
    fn recalled_solid(&self, state: usize) -> Option<Option<usize>>
        ensures { result ≡ noted self.now (calls.Solid state) }
    {
        self.at_hand.solid(state)
    }

    // The answer that was noted of an attribute's blank values.
    #[inline(always)]
    fn recalled_blank_value(&self, state: usize, ns: usize, local: usize) -> Option<Option<usize>>
        ensures { result ≡ noted self.now (calls.BlankValue state ns local) }
    {
        match self.at_hand.blank_value(state, ns, local) {
            Some(answer) => Some(answer),
            None => self.searched(&Asked::BlankValue(state, ns, local)),
        }
    }

    // The answer that was noted of an attribute's other values.
    #[inline(always)]
    fn recalled_solid_value(&self, state: usize, ns: usize, local: usize) -> Option<Option<usize>>
        ensures { result ≡ noted self.now (calls.SolidValue state ns local) }
    {
        match self.at_hand.solid_value(state, ns, local) {
            Some(answer) => Some(answer),
            None => self.searched(&Asked::SolidValue(state, ns, local)),
        }
    }

    // The answer that was noted of a call, by its hash. Out of line, as with texts.
    #[inline(never)]
    fn searched(&self, call: &Asked) -> Option<Option<usize>>
        ensures { result ≡ noted self.now call.now }
    {
        match self.answers.get(call) {
            Some(answer) => Some(*answer),
            None => None,
        }
    }

    /// Notes what a call answers. A state whose number is 2^32 - 2 or more is refused as want of memory. A second, other note of a call
    /// with a name empties blocks and slots.
    pub fn note(&mut self, call: Asked, answer: Option<usize>) -> Result<(), NoMemory>
        ensures made { OnOk result (IsNoted self.old self.new call answer) }
        ensures refused { OnErr result (self.new ≡ self.old) }
    {
        let Some(number) = written(answer) else {
            return Err(NoMemory);
        };
        if call.has_name() {
            self.note_named(call, answer, number)
        } else {
            self.note_plain(call, answer, number)
        }
    }

    // Notes what a call without a name answers, whose row says all that is noted of it.
    fn note_plain(
        &mut self,
        call: Asked,
        answer: Option<usize>,
        number: u32,
    ) -> Result<(), NoMemory>
        requires plain { is_named call ≡ false }
        requires says { said number ≡ Some answer }
        ensures made { OnOk result (IsNoted self.old self.new call answer) }
        ensures refused { OnErr result (self.new ≡ self.old) }
    {
        self.at_hand.make_row(call.state())?;
        // The map has them for the memory's value alone, which is what contracts see.
        self.answers.insert(call, answer)?;
        self.at_hand.put_plain(&call, number);
        Ok(())
    }

    // Notes what a call with a name answers.
    fn note_named(
        &mut self,
        call: Asked,
        answer: Option<usize>,
        number: u32,
    ) -> Result<(), NoMemory>
        requires named { is_named call ≡ true }
        requires says { said number ≡ Some answer }
        ensures made { OnOk result (IsNoted self.old self.new call answer) }
        ensures refused { OnErr result (self.new ≡ self.old) }
    {
        self.at_hand.make_places(&call)?;
        match self.answers.insert(call, answer)? {
            None => {
                self.at_hand.put_named(&call, number);
                Ok(())
            }
            Some(before) => {
                // a block or a slot may hold the answer that was noted before
                if before != answer {
                    self.at_hand.clear_named();
                }
                Ok(())
            }
        }
    }
}
