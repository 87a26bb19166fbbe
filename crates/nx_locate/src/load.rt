//! Rules files fetched and read: the first one, and all that it includes, depth first in the order of the includes.

ghost use Rattle.std.specs.Prelude.{◌≡◌, [], ◌∷◌, ◌++◌, ◌≤◌, List, ℕ, reverse, option_copied, Err, IfOk, OnOk, IsUtf8};
ghost use Rattle.std.specs.List.{list_any, AllByRecursion};
ghost use Rattle.std.specs.Str.{bytes_eq};
ghost use Rattle.nx_locate.specs.declared.rule.Rule.TheVariants.{Include};
ghost use Rattle.nx_locate.specs.Answering.{AreTextPlaced};
ghost use Rattle.nx_locate.specs.RulesFiles.{included_by};
ghost use Rattle.nx_locate.specs.RulesRead.{IsTextRule, AreTextRules};
ghost use Rattle.nx_locate.specs.Walking.{open_of, opened, opens_of, uris_of, left_in, UnderWay, IsTextOpen, AreTextOpen, NextUri, IsAdded, OpensFile, GoesOn, Lists, Loads};

use crate::leading::resolved;
use crate::pattern::bytes_of;
use crate::rule::{PlacedRule, Rule};
use crate::rules_file::rules_at;
use nx_base::locate_fault::LocateFault;
use nx_base::memory::NoMemory;
use nx_base::sequence::{Bytes, TryCopy};
use nx_base::steps::Steps;
use nx_host::files::Files;
use std::alloc::Global;
use std::sync::ledger::Ledger;

/// A rules file of the chain that leads to the one that is read next.
#[derive(Drop)]
struct OpenFile {
    uri: Bytes,
    /// Its rules that aren't listed yet, the next one last.
    waiting: Vec<Rule>,
}

/// Rules that are listed, in order, and the chain of files that aren't done.
#[derive(Drop)]
struct Loader {
    alloc: Global,
    chain: Vec<OpenFile>,
    rules: Vec<PlacedRule>,
}

/// The text by which a rule includes another file.
fn included_by(rule: &Rule) -> Option<&Bytes>
    ensures { option_copied result ≡ included_by rule.now }
{
    match rule {
        Rule::Include(text) => Some(text),
        Rule::Uri(_, _, _) => None,
        Rule::DocumentElement(_, _, _) => None,
        Rule::Namespace(_, _) => None,
        Rule::Default(_) => None,
        Rule::Transform(_, _) => None,
        Rule::TypeId(_, _) => None,
    }
}

/// The rules of the file under the URI, with those of the files that it includes in their places.
pub(crate) fn load<F: Files, L: Ledger>(
    alloc: Global,
    uri: &str,
    files: &mut F,
    steps: &mut Steps<L>,
) -> Result<Vec<PlacedRule>, LocateFault>
    ensures loads { Loads (F.told files.old) uri.now (F.faults files.old) (F.faults files.new) result }
    ensures map { F.told files.new ≡ F.told files.old }
    ensures steps { steps.old ≤ steps.new }
{
    let mut loader = Loader {
        alloc,
        chain: Vec::new(alloc),
        rules: Vec::new(alloc),
    };
    let first = bytes_of(alloc, uri.as_bytes())?;
    loader.open(first, files, steps)?;
    loader.follow(files, steps)?;
    let Loader { rules, .. } = loader;
    Ok(rules)
}

impl Loader {
    /// Fetches and reads a file, and puts it behind the chain.
    fn open<F: Files, L: Ledger>(
        &mut self,
        uri: Bytes,
        files: &mut F,
        steps: &mut Steps<L>,
    ) -> Result<(), LocateFault>
        requires text { IsUtf8 uri }
        ensures opened { OpensFile (F.told files.old) uri (F.faults files.old) (F.faults files.new)
            self.old.chain.items self.new.chain.items result }
        ensures map { F.told files.new ≡ F.told files.old }
        ensures rules { self.new.rules ≡ self.old.rules }
        ensures steps { steps.old ≤ steps.new }
    {
        let rules = rules_at(self.alloc, &uri, files, steps)?;
        self.add(uri, rules)?;
        Ok(())
    }

    /// Puts a file that was read behind the chain.
    fn add(&mut self, uri: Bytes, rules: Vec<Rule>) -> Result<(), NoMemory>
        ensures added { IfOk result (λ _. IsAdded uri rules.items self.old.chain.items self.new.chain.items) }
        ensures rules { self.new.rules ≡ self.old.rules }
    {
        let mut waiting = rules;
        waiting.reverse();
        self.chain.push(OpenFile { uri, waiting })?;
        Ok(())
    }

    /// Lists what the files of the chain have left, and what that includes. Each turn lists a rule, reads a file or ends one,
    /// and rules and files take memory.
    fn follow<F: Files, L: Ledger>(
        &mut self,
        files: &mut F,
        steps: &mut Steps<L>,
    ) -> Result<(), LocateFault>
        requires texts { AreTextOpen (opens_of self.old.chain.items) }
        requires rules { AreTextPlaced self.old.rules.items }
        ensures lists { (start : List ℕ) → UnderWay (F.told files.old) start (opens_of self.old.chain.items) self.old.rules.items
            → Lists (F.told files.old) start (F.faults files.old) (F.faults files.new) self.new.rules.items result }
        ensures texts { IfOk result (λ _. AreTextPlaced self.new.rules.items) }
        ensures map { F.told files.new ≡ F.told files.old }
        ensures steps { steps.old ≤ steps.new }
    {
        for _turn in 0..u64::MAX {
            let Some(file) = self.chain.pop() else {
                return Ok(());
            };
            self.go_on(file, files, steps)?;
        }
        Err(LocateFault::NoMemory)
    }

    /// Goes on with the next rule of this file, or ends it.
    fn go_on<F: Files, L: Ledger>(
        &mut self,
        file: OpenFile,
        files: &mut F,
        steps: &mut Steps<L>,
    ) -> Result<(), LocateFault>
        requires file { IsTextOpen (open_of file) }
        requires chain { AreTextOpen (opens_of self.old.chain.items) }
        requires rules { AreTextPlaced self.old.rules.items }
        ensures goes_on { (start : List ℕ) → UnderWay (F.told files.old) start (open_of file ∷ opens_of self.old.chain.items) self.old.rules.items
            → GoesOn (F.told files.old) start (F.faults files.old) (F.faults files.new)
            (opens_of self.new.chain.items) self.new.rules.items result }
        ensures chain_texts { IfOk result (λ _. AreTextOpen (opens_of self.new.chain.items)) }
        ensures rules_texts { IfOk result (λ _. AreTextPlaced self.new.rules.items) }
        ensures map { F.told files.new ≡ F.told files.old }
        ensures steps { steps.old ≤ steps.new }
    {
        let OpenFile { uri, mut waiting } = file;
        match waiting.pop() {
            Some(rule) => self.turn(OpenFile { uri, waiting }, rule, files, steps),
            None => Ok(()),
        }
    }

    /// Lists a rule of this file, or goes on with the file that it includes.
    fn turn<F: Files, L: Ledger>(
        &mut self,
        file: OpenFile,
        rule: Rule,
        files: &mut F,
        steps: &mut Steps<L>,
    ) -> Result<(), LocateFault>
        requires file { IsTextOpen (open_of file) }
        requires rule { IsTextRule rule }
        requires chain { AreTextOpen (opens_of self.old.chain.items) }
        requires rules { AreTextPlaced self.old.rules.items }
        ensures goes_on { (start : List ℕ) →
            UnderWay (F.told files.old) start (opened file.uri (rule ∷ left_in file) ∷ opens_of self.old.chain.items) self.old.rules.items
            → GoesOn (F.told files.old) start (F.faults files.old) (F.faults files.new)
            (opens_of self.new.chain.items) self.new.rules.items result }
        ensures chain_texts { IfOk result (λ _. AreTextOpen (opens_of self.new.chain.items)) }
        ensures rules_texts { IfOk result (λ _. AreTextPlaced self.new.rules.items) }
        ensures map { F.told files.new ≡ F.told files.old }
        ensures steps { steps.old ≤ steps.new }
    {
        match included_by(&rule) {
            Some(text) => self.include(file, text, files, steps),
            None => {
                self.list(file, rule)?;
                Ok(())
            }
        }
    }

    /// Lists a rule of this file, which goes back behind the chain.
    fn list(&mut self, file: OpenFile, rule: Rule) -> Result<(), NoMemory>
        ensures chain { IfOk result (λ _. self.new.chain.items ≡ self.old.chain.items ++ file ∷ []) }
        ensures rules { IfOk result (λ _. self.new.rules.items ≡ self.old.rules.items ++ record { base = file.uri; rule = rule } ∷ []) }
    {
        let base = file.uri.copy()?;
        self.rules.push(PlacedRule { base, rule })?;
        self.put_back(file)
    }

    /// Puts a file that isn't done behind the chain again.
    fn put_back(&mut self, file: OpenFile) -> Result<(), NoMemory>
        ensures chain { IfOk result (λ _. self.new.chain.items ≡ self.old.chain.items ++ file ∷ []) }
        ensures rules { self.new.rules ≡ self.old.rules }
    {
        self.chain.push(file)?;
        Ok(())
    }

    /// Goes on with the file that this one includes by the text.
    fn include<F: Files, L: Ledger>(
        &mut self,
        file: OpenFile,
        text: &Bytes,
        files: &mut F,
        steps: &mut Steps<L>,
    ) -> Result<(), LocateFault>
        requires file { IsTextOpen (open_of file) }
        requires text { IsUtf8 text.now }
        requires chain { AreTextOpen (opens_of self.old.chain.items) }
        ensures goes_on { (start : List ℕ) →
            UnderWay (F.told files.old) start (opened file.uri (Include text.now ∷ left_in file) ∷ opens_of self.old.chain.items)
            self.old.rules.items
            → GoesOn (F.told files.old) start (F.faults files.old) (F.faults files.new)
            (opens_of self.new.chain.items) self.old.rules.items result }
        ensures chain_texts { IfOk result (λ _. AreTextOpen (opens_of self.new.chain.items)) }
        ensures rules { self.new.rules ≡ self.old.rules }
        ensures map { F.told files.new ≡ F.told files.old }
        ensures steps { steps.old ≤ steps.new }
    {
        let uri = self.next_uri(&file.uri, text)?;
        self.put_back(file)?;
        self.open(uri, files, steps)
    }

    /// The URI that the text denotes in the file of that URI, which is the last one behind the chain.
    fn next_uri(&self, base: &Bytes, text: &Bytes) -> Result<Bytes, LocateFault>
        requires base_is_text { IsUtf8 base.now }
        requires text_is_text { IsUtf8 text.now }
        ensures { NextUri (uris_of (opens_of self.now.chain.items)) base.now text.now result }
    {
        let uri = resolved(self.alloc, base, text)?;
        if uri.as_slice() == base.as_slice() || self.leads_from(&uri) {
            return Err(LocateFault::RulesLoop(uri));
        }
        Ok(uri)
    }

    /// Whether the URI is that of a file of the chain.
    fn leads_from(&self, uri: &Bytes) -> bool
        ensures { result ≡ list_any (λ file. bytes_eq uri.now file.uri) (reverse self.now.chain.items) }
    {
        self.chain
            .iter()
            .rev()
            .any(|file| uri.as_slice() == file.uri.as_slice())
    }
}
