//! Files fetched and read: the first one, and all that are reached from it, depth first in the order of the references.

ghost use Rattle.std.specs.Prelude.{◌≡◌, ◌∷◌, ◌++◌, ◌≤◌, [], List, ℕ, true, false, reverse, Err, IfOk, IsUtf8};
ghost use Rattle.std.specs.List.{list_any};
ghost use Rattle.std.specs.Str.{bytes_eq};
ghost use Rattle.rng_simplify.specs.declared.load.Link.{Link as TheLink};
ghost use Rattle.rng_simplify.specs.LoadedFiles.{Loads, unread_as, unread_markup_as, SaysAs, SaysIn, SaysBytes, IsAbsence, Fetches, SaysFile};
ghost use Rattle.rng_simplify.specs.KeptMentions.{IsTextMention};
ghost use Rattle.rng_simplify.specs.FileChains.{IsAdded, IsUnderWay, uris_of, MakesUri, IsBadText, NextUri, OpensFile};
ghost use Rattle.rng_simplify.specs.FileChains.{GoesOn, Follows, IsTextLink, AreTextLinks, AreOpened};

use crate::fault::SchemaFault;
use crate::mention::{Mention, mentions_of};
use crate::names::Names;
use nx_base::cause::Cause;
use nx_base::memory::NoMemory;
use nx_base::sequence::{Bytes, TryCopy};
use nx_base::steps::Steps;
use nx_host::files::{FileFault, Files};
use nx_host::uri::{self, UriFault};
use nx_host::utf8::{text_front, text_of};
use rnc_lex::fault::LexFault;
use rnc_parse::read::{ReadFault, read};
use rnc_parse::surface::Surface;
use rngx_read::read::{self as markup, XReadFault, is_markup};
use std::alloc::Global;
use std::sync::ledger::Ledger;

/// A file that was read.
#[derive(Drop)]
pub(crate) struct Loaded {
    /// The namespace that it inherits.
    pub(crate) inherited: Bytes,
    pub(crate) surface: Surface,
}

/// A file of the chain that leads to the one that is read next.
#[derive(Drop)]
struct Link {
    uri: Bytes,
    /// What it mentions and isn't read yet, the next one last.
    waiting: Vec<Mention>,
}

/// Files that are read, in order, and the chain of those that aren't done.
#[derive(Drop)]
struct Loader {
    alloc: Global,
    chain: Vec<Link>,
    loaded: Vec<Loaded>,
    /// The URIs of all files that were opened, those of the chain among them. Most files are new, and so need no look at the
    /// chain.
    opened: Names<()>,
}

/// The file and all that it leads to. They are read in the order in which they are mentioned, an outer file before those that
/// it mentions; the answer has them the other way round, the first one last.
pub(crate) fn load<F: Files, L: Ledger>(
    alloc: Global,
    uri: &str,
    files: &mut F,
    steps: &mut Steps<L>,
) -> Result<Vec<Loaded>, SchemaFault>
    ensures loads { Loads (F.told files.old) uri.now (F.faults files.old) (F.faults files.new) result }
    ensures map { F.told files.new ≡ F.told files.old }
    ensures steps { steps.old ≤ steps.new }
{
    let mut loader = Loader {
        alloc,
        chain: Vec::new(alloc),
        loaded: Vec::new(alloc),
        opened: Names::new(alloc),
    };
    let first = Bytes::from_vec(Vec::from_slice(alloc, uri.as_bytes())?);
    loader.open(first, Bytes::new(alloc), files, steps)?;
    loader.follow(files, steps)?;
    let Loader { mut loaded, .. } = loader;
    loaded.reverse();
    Ok(loaded)
}

/// What the bytes of a file say.
fn surface_of<L: Ledger>(
    alloc: Global,
    uri: &Bytes,
    bytes: &Bytes,
    steps: &mut Steps<L>,
) -> Result<Surface, SchemaFault>
    ensures said { SaysBytes uri.now bytes.now result }
    ensures steps { steps.old ≤ steps.new }
{
    match str::from_utf8(bytes.as_slice()) {
        Ok(text) => surface_in(alloc, text, steps),
        Err(_) => Err(not_utf8(uri, bytes)),
    }
}

/// What a text says, in the syntax that it is written in.
fn surface_in<L: Ledger>(
    alloc: Global,
    text: &str,
    steps: &mut Steps<L>,
) -> Result<Surface, SchemaFault>
    ensures said { SaysIn text.now result }
    ensures steps { steps.old ≤ steps.new }
{
    if is_markup(text) {
        surface_in_markup(alloc, text, steps)
    } else {
        surface_in_compact(alloc, text)
    }
}

/// What a text in the XML syntax says.
fn surface_in_markup<L: Ledger>(
    alloc: Global,
    text: &str,
    steps: &mut Steps<L>,
) -> Result<Surface, SchemaFault>
    ensures said { SaysAs true text.now result }
    ensures steps { steps.old ≤ steps.new }
{
    match markup::read(alloc, text, steps) {
        Ok(surface) => Ok(surface),
        Err(fault) => Err(unread_markup(fault)),
    }
}

/// What a text in the compact syntax says.
fn surface_in_compact(alloc: Global, text: &str) -> Result<Surface, SchemaFault>
    ensures { SaysAs false text.now result }
{
    match read(alloc, text) {
        Ok(surface) => Ok(surface),
        Err(fault) => Err(unread(fault)),
    }
}

/// The refusal of a file in the XML syntax that can't be read.
fn unread_markup(fault: XReadFault) -> SchemaFault
    ensures { result ≡ unread_markup_as fault }
{
    match fault {
        XReadFault::BadMarkup(_) => SchemaFault::Unreadable(Cause::BadMarkup),
        XReadFault::TooDeep(_) => SchemaFault::Unreadable(Cause::TooDeep),
        XReadFault::BadForm(_) => SchemaFault::Unreadable(Cause::BadForm),
        XReadFault::UndeclaredPrefix(_) => SchemaFault::Unreadable(Cause::UndeclaredPrefix),
        XReadFault::NoMemory => SchemaFault::NoMemory,
    }
}

/// The refusal of a file that isn't UTF-8.
fn not_utf8(uri: &Bytes, bytes: &Bytes) -> SchemaFault
    requires { IsUtf8 bytes.now → ⊥ }
    ensures { SaysBytes uri.now bytes.now (Err result) }
{
    match uri.copy() {
        Ok(uri) => SchemaFault::NotUtf8(uri, text_front(bytes.as_slice())),
        Err(_) => SchemaFault::NoMemory,
    }
}

/// The refusal of a file in the compact syntax that can't be read.
fn unread(fault: ReadFault) -> SchemaFault
    ensures { result ≡ unread_as fault }
{
    match fault {
        ReadFault::Lex(LexFault::BadEscape(_)) => SchemaFault::Unreadable(Cause::BadEscape),
        ReadFault::Lex(LexFault::BadLiteral(_)) => SchemaFault::Unreadable(Cause::BadLiteral),
        ReadFault::Lex(LexFault::BadCharacter(_)) => SchemaFault::Unreadable(Cause::BadCharacter),
        ReadFault::Lex(LexFault::NoMemory) => SchemaFault::NoMemory,
        ReadFault::TooDeep(_) => SchemaFault::Unreadable(Cause::TooDeep),
        ReadFault::Syntax(_) => SchemaFault::Unreadable(Cause::Syntax),
        ReadFault::UndeclaredPrefix(_) => SchemaFault::Unreadable(Cause::UndeclaredPrefix),
        ReadFault::Twice(_) => SchemaFault::Unreadable(Cause::Twice),
        ReadFault::NoMemory => SchemaFault::NoMemory,
    }
}

/// The bytes under a URI.
fn fetched<F: Files>(alloc: Global, uri: &Bytes, files: &mut F) -> Result<Bytes, SchemaFault>
    requires { IsUtf8 uri.now }
    ensures found { Fetches (F.told files.old) uri.now (F.faults files.old) (F.faults files.new) result }
    ensures map { F.told files.new ≡ F.told files.old }
{
    match files.fetch(alloc, text_of(uri)) {
        Ok(Some(bytes)) => Ok(bytes),
        Ok(None) => Err(absent(uri)),
        Err(FileFault::Failed) => Err(SchemaFault::Failed),
        Err(FileFault::NoMemory) => Err(SchemaFault::NoMemory),
    }
}

/// The refusal of a URI with nothing under it.
fn absent(uri: &Bytes) -> SchemaFault
    ensures { IsAbsence uri.now result }
{
    match uri.copy() {
        Ok(uri) => SchemaFault::Absent(uri),
        Err(_) => SchemaFault::NoMemory,
    }
}

/// What the file of a URI says.
fn file_at<F: Files, L: Ledger>(
    alloc: Global,
    uri: &Bytes,
    files: &mut F,
    steps: &mut Steps<L>,
) -> Result<Surface, SchemaFault>
    requires { IsUtf8 uri.now }
    ensures file { SaysFile (F.told files.old) uri.now (F.faults files.old) (F.faults files.new) result }
    ensures map { F.told files.new ≡ F.told files.old }
    ensures steps { steps.old ≤ steps.new }
{
    let bytes = fetched(alloc, uri, files)?;
    surface_of(alloc, uri, &bytes, steps)
}

/// The URI that the text denotes in the file of that URI.
fn resolved(alloc: Global, base: &Bytes, text: &Bytes) -> Result<Bytes, SchemaFault>
    requires base_is_text { IsUtf8 base.now }
    requires text_is_text { IsUtf8 text.now }
    ensures { MakesUri base.now text.now result }
{
    match uri::join(alloc, text_of(base), text_of(text)) {
        Ok(uri) => Ok(uri),
        Err(UriFault::Bad) => Err(bad_uri(text)),
        Err(UriFault::NoMemory) => Err(SchemaFault::NoMemory),
    }
}

/// The refusal of a text that is no URI.
fn bad_uri(text: &Bytes) -> SchemaFault
    ensures { IsBadText text.now result }
{
    match text.copy() {
        Ok(text) => SchemaFault::BadUri(text),
        Err(_) => SchemaFault::NoMemory,
    }
}

impl Loader {
    /// Fetches and reads a file, and adds it to the chain.
    fn open<F: Files, L: Ledger>(
        &mut self,
        uri: Bytes,
        inherited: Bytes,
        files: &mut F,
        steps: &mut Steps<L>,
    ) -> Result<(), SchemaFault>
        requires text { IsUtf8 uri }
        requires known { AreOpened self.old.opened (reverse self.old.chain.items) }
        ensures known { IfOk result (λ _. AreOpened self.new.opened (reverse self.new.chain.items)) }
        ensures opened { OpensFile (F.told files.old) uri inherited (F.faults files.old)
            (F.faults files.new) self.old.chain.items self.new.chain.items self.old.loaded.items self.new.loaded.items result }
        ensures map { F.told files.new ≡ F.told files.old }
        ensures steps { steps.old ≤ steps.new }
    {
        let surface = file_at(self.alloc, &uri, files, steps)?;
        self.add(uri, Loaded { inherited, surface })?;
        Ok(())
    }

    /// Adds a file that was read.
    fn add(&mut self, uri: Bytes, file: Loaded) -> Result<(), NoMemory>
        requires { AreOpened self.old.opened (reverse self.old.chain.items) }
        ensures known { IfOk result (λ _. AreOpened self.new.opened (reverse self.new.chain.items)) }
        ensures added { IfOk result (λ _. IsAdded uri file.inherited file.surface
            self.old.chain.items self.new.chain.items self.old.loaded.items self.new.loaded.items) }
    {
        match self.lead_on(uri, &file) {
            Ok(()) => {
                self.loaded.push(file)?;
                Ok(())
            }
            // The checker unfolds a drop that no call makes, down to each part of the file.
            Err(fault) => {
                drop(file);
                Err(fault)
            }
        }
    }

    /// Leads the chain on to this file, of which nothing that it mentions is read yet.
    fn lead_on(&mut self, uri: Bytes, file: &Loaded) -> Result<(), NoMemory>
        requires { AreOpened self.old.opened (reverse self.old.chain.items) }
        ensures known { IfOk result (λ _. AreOpened self.new.opened (reverse self.new.chain.items)) }
        ensures added { IfOk result (λ _. IsAdded uri file.now.inherited file.now.surface
            self.old.chain.items self.new.chain.items self.old.loaded.items (self.old.loaded.items ++ file.now ∷ [])) }
        ensures loaded { self.new.loaded ≡ self.old.loaded }
    {
        let waiting = mentions_of(self.alloc, &file.inherited, &file.surface)?;
        self.opened.add_named(&uri, ())?;
        self.chain.push(Link { uri, waiting })?;
        Ok(())
    }

    /// Reads what the files of the chain mention, and what that leads to. Each turn reads a file or ends one, and a file
    /// takes memory.
    fn follow<F: Files, L: Ledger>(
        &mut self,
        files: &mut F,
        steps: &mut Steps<L>,
    ) -> Result<(), SchemaFault>
        requires texts { AreTextLinks (reverse self.old.chain.items) }
        requires known { AreOpened self.old.opened (reverse self.old.chain.items) }
        ensures followed { (uri : List ℕ) → IsUnderWay (F.told files.old) uri (reverse self.old.chain.items) self.old.loaded.items
            → Follows (F.told files.old) uri (F.faults files.old) (F.faults files.new) self.new.loaded.items result }
        ensures map { F.told files.new ≡ F.told files.old }
        ensures steps { steps.old ≤ steps.new }
    {
        for _turn in 0..u64::MAX {
            let Some(link) = self.chain.pop() else {
                return Ok(());
            };
            self.go_on(link, files, steps)?;
        }
        Err(SchemaFault::NoMemory)
    }

    /// Reads the next file that this one mentions, or ends it.
    fn go_on<F: Files, L: Ledger>(
        &mut self,
        link: Link,
        files: &mut F,
        steps: &mut Steps<L>,
    ) -> Result<(), SchemaFault>
        requires link { IsTextLink link }
        requires chain { AreTextLinks (reverse self.old.chain.items) }
        requires known { AreOpened self.old.opened (link ∷ reverse self.old.chain.items) }
        ensures known { IfOk result (λ _. AreOpened self.new.opened (reverse self.new.chain.items)) }
        ensures texts { IfOk result (λ _. AreTextLinks (reverse self.new.chain.items)) }
        ensures goes_on { (uri : List ℕ) → IsUnderWay (F.told files.old) uri (link ∷ reverse self.old.chain.items) self.old.loaded.items
            → GoesOn (F.told files.old) uri (F.faults files.old) (F.faults files.new)
            (reverse self.new.chain.items) self.new.loaded.items result }
        ensures faults { IfOk result (λ _. F.faults files.new ≡ F.faults files.old) }
        ensures map { F.told files.new ≡ F.told files.old }
        ensures steps { steps.old ≤ steps.new }
    {
        let Link { uri, mut waiting } = link;
        match waiting.pop() {
            Some(mention) => self.open_mention(Link { uri, waiting }, mention, files, steps),
            None => Ok(()),
        }
    }

    /// Reads a file that this one mentions.
    fn open_mention<F: Files, L: Ledger>(
        &mut self,
        link: Link,
        mention: Mention,
        files: &mut F,
        steps: &mut Steps<L>,
    ) -> Result<(), SchemaFault>
        requires link { IsTextLink link }
        requires mention { IsTextMention mention }
        requires chain { AreTextLinks (reverse self.old.chain.items) }
        requires known { AreOpened self.old.opened (link ∷ reverse self.old.chain.items) }
        ensures known { IfOk result (λ _. AreOpened self.new.opened (reverse self.new.chain.items)) }
        ensures texts { IfOk result (λ _. AreTextLinks (reverse self.new.chain.items)) }
        ensures goes_on { (uri : List ℕ) (before : TheLink) → before.uri ≡ link.uri
            → reverse before.waiting.items ≡ mention ∷ reverse link.waiting.items
            → IsUnderWay (F.told files.old) uri (before ∷ reverse self.old.chain.items) self.old.loaded.items
            → GoesOn (F.told files.old) uri (F.faults files.old) (F.faults files.new)
            (reverse self.new.chain.items) self.new.loaded.items result }
        ensures faults { IfOk result (λ _. F.faults files.new ≡ F.faults files.old) }
        ensures map { F.told files.new ≡ F.told files.old }
        ensures steps { steps.old ≤ steps.new }
    {
        let uri = self.next_uri(&link.uri, &mention.text)?;
        self.chain.push(link)?;
        self.open(uri, mention.inherited, files, steps)
    }

    /// The URI that the text denotes in the file of that URI, which is the last one behind the chain.
    fn next_uri(&self, base: &Bytes, text: &Bytes) -> Result<Bytes, SchemaFault>
        requires base_is_text { IsUtf8 base.now }
        requires text_is_text { IsUtf8 text.now }
        requires known { AreOpened self.now.opened (reverse self.now.chain.items) }
        ensures { NextUri (uris_of (reverse self.now.chain.items)) base.now text.now result }
    {
        let uri = resolved(self.alloc, base, text)?;
        if uri.as_slice() == base.as_slice() || self.leads_from(&uri) {
            return Err(SchemaFault::Unreadable(Cause::IncludeLoop));
        }
        Ok(uri)
    }

    /// Whether the URI is that of a file of the chain.
    fn leads_from(&self, uri: &Bytes) -> bool
        requires { AreOpened self.now.opened (reverse self.now.chain.items) }
        ensures { result ≡ list_any (λ link. bytes_eq uri.now link.uri) (reverse self.now.chain.items) }
    {
        match self.opened.named(uri) {
            Some(_) => self.stands_in_chain(uri),
            None => false,
        }
    }

    /// The same by a look at each file of the chain.
    fn stands_in_chain(&self, uri: &Bytes) -> bool
        ensures { result ≡ list_any (λ link. bytes_eq uri.now link.uri) (reverse self.now.chain.items) }
    {
        self.chain
            .iter()
            .rev()
            .any(|link| uri.as_slice() == link.uri.as_slice())
    }
}
