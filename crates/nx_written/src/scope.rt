//! Declarations in force, found by prefix and by URI (Namespaces in XML 1.0, section 3).

ghost use Rattle.std.specs.Prelude.{◌≡◌, ◌++◌, ◌∷◌, ◌-◌, [], length, take, map, option_copied, IfOk, OnOk};
ghost use Rattle.std.specs.Fmt.{decimal};
ghost use Rattle.nx_events.specs.Places.{last_place, last_named};
ghost use Rattle.nx_events.specs.Scopes.{last_uri};
ghost use Rattle.nx_events.specs.declared.scope.Binding.{Binding};

use crate::declaration::Declaration;
use crate::serving::Serving;
use nx_base::memory::NoMemory;
use nx_events::name_places::NamePlaces;
use std::alloc::Global;
use std::marker::Model;

/// Declarations in force, the innermost last. To a contract they are the list of their pairs.
#[derive(Drop)]
pub(crate) struct Scope {
    alloc: Global,
    declarations: Vec<Declaration>,
    /// Their prefixes.
    prefixes: NamePlaces,
    serving: Serving,
    /// The least number that isn't the one of a prefix in force that is `n` and a number.
    number: u64,
    /// What that was in front of each declaration.
    numbers: Vec<u64>,
    /// Numbers that were passed over at once.
    passed: Passed,
}

impl Model for Scope {
    ghost use Rattle.std.specs.Prelude.{◌≡◌, List, map};
    ghost use Rattle.nx_events.specs.declared.scope.Binding.{Binding};

    ghost Value = { List Binding };

    ghost view = { λ s. s.declarations.items };

    ghost invariant = { λ s. s.prefixes ≡ map (λ (it : Binding). it.prefix) s.declarations.items };
}

/// `n` and a number.
pub(crate) fn numbered(alloc: Global, number: u64) -> Result<Vec<u8>, NoMemory>
    ensures { IfOk result (λ prefix. prefix.items ≡ 110 ∷ decimal number) }
{
    Ok(format!(in alloc; "n{number}")?.into_bytes())
}

/// Numbers in a row that prefixes among the first declarations have, so that they needn't be asked one by one again.
#[derive(Clone, Copy)]
struct Passed {
    first: u64,
    behind: u64,
    /// So many declarations have them.
    declarations: usize,
}

impl Scope {
    /// No declarations.
    fn empty(alloc: Global) -> Scope
        ensures { result ≡ [] }
    {
        Scope {
            alloc,
            declarations: Vec::new(alloc),
            prefixes: NamePlaces::new(alloc),
            serving: Serving::new(alloc),
            number: 0,
            numbers: Vec::new(alloc),
            passed: Passed {
                first: 0,
                behind: 0,
                declarations: 0,
            },
        }
    }

    /// These declarations.
    pub(crate) fn new(alloc: Global, declarations: Vec<Declaration>) -> Result<Scope, NoMemory>
        ensures { IfOk result (λ scope. scope ≡ declarations.items) }
    {
        let mut scope = Scope::empty(alloc);
        for declaration in declarations {
            scope.push(declaration)?;
        }
        Ok(scope)
    }

    /// How many there are.
    pub(crate) fn len(&self) -> usize
        ensures { result ≡ length self.now }
    {
        self.declarations.len()
    }

    /// The least number that isn't the one of a prefix in force that is `n` and a number.
    pub(crate) fn first_number(&self) -> u64 {
        self.number
    }

    /// The place of the last one of a prefix.
    fn last_place(&self, prefix: &[u8]) -> Option<usize>
        ensures { result ≡ last_place prefix.now (map (λ (it : Binding). it.prefix) self.now) }
    {
        self.prefixes.last_place(prefix)
    }

    /// The last one of a prefix.
    fn last_named(&self, prefix: &[u8]) -> Option<&Declaration>
        ensures { option_copied result ≡ last_named (λ (it : Binding). it.prefix) prefix.now self.now }
    {
        self.declarations.get(self.last_place(prefix)?)
    }

    /// The URI of the last one of a prefix.
    pub(crate) fn last_uri(&self, prefix: &[u8]) -> Option<&[u8]>
        ensures { option_copied result ≡ last_uri self.now prefix.now }
    {
        match self.last_named(prefix) {
            None => None,
            Some(declaration) => Some(declaration.uri()),
        }
    }

    /// One whose prefix names of a URI may have; who asks looks whether they can. If none is told, none is known.
    pub(crate) fn of_uri(&self, uri: &[u8]) -> Option<&Declaration> {
        self.declarations.get(self.serving.innermost(uri)?)
    }

    /// Notes a declaration that is put in force, and that may hide another one.
    fn hide(&mut self, declaration: &Declaration) -> Result<(), NoMemory>
        ensures { self.new ≡ self.old }
    {
        // Names of attributes don't have the default namespace.
        if declaration.prefix().is_empty() {
            return Ok(());
        }
        if let Some(place) = self.last_place(declaration.prefix()) {
            if let Some(other) = self.declarations.get(place) {
                self.serving.remove(other.uri(), place);
            }
        }
        self.serving
            .add(declaration.uri(), self.declarations.len())?;
        Ok(())
    }

    /// How many declarations have to be in force for a prefix of them to be `n` and this number.
    fn declarations_of(&self, number: u64) -> Result<Option<usize>, NoMemory> {
        let prefix = numbered(self.alloc, number)?;
        match self.prefixes.last_place(&prefix) {
            None => Ok(None),
            Some(place) => Ok(Some(place + 1)),
        }
    }

    /// Goes on to the next number that no prefix in force has. They would run out only behind more declarations than memory holds.
    fn pass_numbers(&mut self) -> Result<(), NoMemory>
        ensures { OnOk result (self.new ≡ self.old) }
    {
        let first = self.number.checked_add(1).ok_or(NoMemory)?;
        let mut passed = Passed {
            first,
            behind: first,
            declarations: 0,
        };
        if first == self.passed.first && self.passed.declarations <= self.len() {
            passed = self.passed;
        }
        for number in passed.behind..u64::MAX {
            let Some(declarations) = self.declarations_of(number)? else {
                passed.behind = number;
                self.number = number;
                self.passed = passed;
                return Ok(());
            };
            passed.declarations = passed.declarations.max(declarations);
        }
        Err(NoMemory)
    }

    /// Notes the number of a prefix that is put in force.
    fn count(&mut self, prefix: &[u8]) -> Result<(), NoMemory>
        ensures { OnOk result (self.new ≡ self.old) }
    {
        self.numbers.push(self.number)?;
        if numbered(self.alloc, self.number)?.as_slice() == prefix {
            self.pass_numbers()?;
        }
        Ok(())
    }

    /// Puts a declaration in force.
    pub(crate) fn push(&mut self, declaration: Declaration) -> Result<(), NoMemory>
        ensures { OnOk result (self.new ≡ self.old ++ declaration ∷ []) }
    {
        self.hide(&declaration)?;
        self.count(declaration.prefix())?;
        self.prefixes.push(self.alloc, declaration.prefix())?;
        match self.declarations.push(declaration) {
            Ok(()) => Ok(()),
            Err(_) => {
                self.prefixes.pop();
                Err(NoMemory)
            }
        }
    }

    /// Notes that a declaration isn't in force any more.
    fn show(&mut self, declaration: &Declaration) -> Result<(), NoMemory>
        ensures { self.new ≡ self.old }
    {
        if let Some(number) = self.numbers.pop() {
            self.number = number;
        }
        if self.declarations.len() < self.passed.declarations {
            // Some of them may be free again.
            self.passed.declarations = 0;
            self.passed.behind = self.passed.first;
        }
        if declaration.prefix().is_empty() {
            return Ok(());
        }
        self.serving
            .remove(declaration.uri(), self.declarations.len());
        if let Some(place) = self.last_place(declaration.prefix()) {
            if let Some(other) = self.declarations.get(place) {
                self.serving.add(other.uri(), place)?;
            }
        }
        Ok(())
    }

    /// Takes the last one off, if there is one.
    fn pop(&mut self) -> Result<(), NoMemory>
        ensures { self.new ≡ take (length self.old - 1) self.old }
    {
        self.prefixes.pop();
        if let Some(declaration) = self.declarations.pop() {
            self.show(&declaration)?;
        }
        Ok(())
    }

    /// Leaves so many at the front.
    pub(crate) fn truncate(&mut self, len: usize) -> Result<(), NoMemory>
        ensures { OnOk result (self.new ≡ take len self.old) }
    {
        while self.len() > len {
            self.pop()?;
        }
        Ok(())
    }
}
