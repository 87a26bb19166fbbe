//! What prefixes stand for.

ghost use Rattle.std.specs.Prelude.{◌≡◌, IfOk, List, [], ◌∷◌, ◌++◌, Some, None};
ghost use Rattle.rnc_lex.specs.declared.token.Lexeme.{Lexeme};
ghost use Rattle.rnc_parse.specs.Reading.{Finds};
ghost use Rattle.rnc_parse.specs.ReadingParts.{namespace_at, library_at};
ghost use Rattle.rnc_parse.specs.Looking.{scope_in};
ghost use Rattle.rnc_parse.specs.LookingUp.{may_be_bound, is_of_xml};
ghost use Rattle.rnc_parse.specs.declared.scope.Clash.TheVariants as clash;

use crate::declaration::Declaration;
use crate::stop::Stop;
use crate::surface::Namespace;
use nx_base::memory::NoMemory;
use nx_base::sequence::{Bytes, TryCopy};
use std::alloc::{AllocError, AllocFailed, Global};
use std::collections::BTreeMap;

/// The namespace of `xml`, which is bound without a declaration (Namespaces in XML 1.0, section 3).
const XML: &str = "http://www.w3.org/XML/1998/namespace";

/// The library of `xsd`, unless another is declared.
const XSD: &str = "http://www.w3.org/2001/XMLSchema-datatypes";

/// What prefixes stand for.
#[derive(Drop)]
pub(crate) struct LookUps {
    alloc: Global,
    /// Every prefix stands for something, whatever is declared: so tokens are read for their syntax alone.
    any: bool,
    /// The namespaces of the prefixes that are declared.
    namespaces: BTreeMap<Vec<u8>, Namespace>,
    /// The URIs of the libraries whose prefixes are declared.
    libraries: BTreeMap<Vec<u8>, Bytes>,
    /// The namespace of names of elements without a prefix, where one is declared.
    unprefixed: Option<Namespace>,
}

/// Why declarations have no look-ups.
#[derive(Drop)]
pub(crate) enum Clash {
    /// The prefix, empty for the default, is declared twice, or declared though it may not be.
    Twice(Bytes),
    NoMemory,
}

impl From<NoMemory> for Clash {
    ghost from_gives = { λ _ why. why ≡ clash.NoMemory };

    fn from(_error: NoMemory) -> Clash {
        Clash::NoMemory
    }
}

impl From<AllocError> for Clash {
    ghost from_gives = { λ _ why. why ≡ clash.NoMemory };

    fn from(_error: AllocError) -> Clash {
        Clash::NoMemory
    }
}

impl<T: Drop> From<AllocFailed<T>> for Clash {
    ghost from_gives = { λ _ why. why ≡ clash.NoMemory };

    fn from(_error: AllocFailed<T>) -> Clash {
        Clash::NoMemory
    }
}

impl TryCopy for Namespace {
    fn copy(&self) -> Result<Namespace, NoMemory> {
        match self {
            Namespace::Inherited => Ok(Namespace::Inherited),
            Namespace::Uri(uri) => Ok(Namespace::Uri(uri.copy()?)),
        }
    }
}

/// The bytes of a text.
pub(crate) fn bytes_of(alloc: Global, text: &str) -> Result<Bytes, NoMemory>
    ensures { IfOk result (λ bytes. bytes ≡ text.now) }
{
    Ok(Bytes::from_vec(Vec::from_slice(alloc, text.as_bytes())?))
}

impl LookUps {
    ghost use Rattle.rnc_parse.specs.declared.declaration.Declaration.{Declaration};
    ghost use Rattle.rnc_parse.specs.declared.declaration.Declaration.TheVariants as declaration;
    ghost use Rattle.rnc_parse.specs.LookingUp.{LooksUp, HoldsSoFar, Declares};

    /// Look-ups of no declaration. With `any`, every prefix stands for something.
    pub(crate) fn new(alloc: Global, any: bool) -> LookUps
        ensures any { result.any ≡ any }
        ensures unprefixed { result.unprefixed ≡ None }
        ensures namespaces { result.namespaces.entries ≡ [] }
        ensures libraries { result.libraries.entries ≡ [] }
    {
        LookUps {
            alloc,
            any,
            namespaces: BTreeMap::new(alloc),
            libraries: BTreeMap::new(alloc),
            unprefixed: None,
        }
    }

    /// What the declarations say, if they are in order.
    pub(crate) fn declared(alloc: Global, declarations: &[Declaration]) -> Result<LookUps, Clash>
        ensures { LooksUp declarations.now result }
    {
        let mut look_ups = LookUps::new(alloc, false);
        for declaration in declarations {
            if let Err(clash) = look_ups.declare(declaration) {
                return Err(clash);
            }
        }
        Ok(look_ups)
    }

    /// Adds what a declaration says.
    fn declare(&mut self, declaration: &Declaration) -> Result<(), Clash>
        ensures { (done : List Declaration) → HoldsSoFar self.old done → Declares (done ++ declaration.now ∷ []) self.new result }
    {
        match declaration {
            Declaration::Namespace(prefix, ns) => self.bind(prefix, ns),
            Declaration::Default(None, ns) => self.set_default(ns),
            Declaration::Default(Some(prefix), ns) => self.bind_default(prefix, ns),
            Declaration::Datatypes(prefix, uri) => self.bind_library(prefix, uri),
        }
    }

    /// Binds a prefix of names to a namespace.
    fn bind(&mut self, prefix: &Bytes, ns: &Namespace) -> Result<(), Clash>
        ensures { (done : List Declaration) → HoldsSoFar self.old done → Declares
            (done ++ declaration.Namespace prefix.now ns.now ∷ []) self.new result }
    {
        if !may_bind(prefix, ns) {
            return Err(Clash::Twice(prefix.copy()?));
        }
        if self.namespaces.get(prefix.as_slice()).is_some() {
            return Err(Clash::Twice(prefix.copy()?));
        }
        let key = Vec::from_slice(self.alloc, prefix.as_slice())?;
        let ns = ns.copy()?;
        self.namespaces.insert(key, ns)?;
        Ok(())
    }

    /// Sets the namespace of names of elements without a prefix.
    fn set_default(&mut self, ns: &Namespace) -> Result<(), Clash>
        ensures { (done : List Declaration) → HoldsSoFar self.old done → Declares
            (done ++ declaration.Default None ns.now ∷ []) self.new result }
    {
        if self.unprefixed.is_some() {
            return Err(Clash::Twice(Bytes::new(self.alloc)));
        }
        self.unprefixed = Some(ns.copy()?);
        Ok(())
    }

    /// Sets the namespace of names of elements without a prefix, and binds a prefix to it.
    fn bind_default(&mut self, prefix: &Bytes, ns: &Namespace) -> Result<(), Clash>
        ensures { (done : List Declaration) → HoldsSoFar self.old done → Declares
            (done ++ declaration.Default (Some prefix.now) ns.now ∷ []) self.new result }
    {
        match self.set_default(ns) {
            Ok(()) => self.bind(prefix, ns),
            Err(clash) => Err(clash),
        }
    }

    /// Binds a prefix of types to a library.
    fn bind_library(&mut self, prefix: &Bytes, uri: &Bytes) -> Result<(), Clash>
        ensures { (done : List Declaration) → HoldsSoFar self.old done → Declares
            (done ++ declaration.Datatypes prefix.now uri.now ∷ []) self.new result }
    {
        if self.libraries.get(prefix.as_slice()).is_some() {
            return Err(Clash::Twice(prefix.copy()?));
        }
        let key = Vec::from_slice(self.alloc, prefix.as_slice())?;
        let uri = uri.copy()?;
        self.libraries.insert(key, uri)?;
        Ok(())
    }

    /// The namespace of names of elements without a prefix.
    pub(crate) fn unprefixed(&self) -> Result<Namespace, NoMemory>
        ensures { IfOk result (λ ns. ns ≡ (scope_in self.now).unprefixed) }
    {
        match &self.unprefixed {
            Some(ns) => ns.copy(),
            None => Ok(Namespace::Inherited),
        }
    }

    /// The namespace of a prefix.
    #[tactic(auto, unfolding(crate::specs::Reading::looked_up, crate::specs::ReadingParts::namespace_at))]
    pub(crate) fn namespace(&self, prefix: &Bytes) -> Result<Namespace, Stop>
        ensures { (rest : List Lexeme) → Finds (λ ns. ns) rest result (namespace_at (scope_in self.now) prefix.now rest) }
    {
        if self.any {
            return Ok(Namespace::Inherited);
        }
        if prefix.as_slice() == "xml".as_bytes() {
            return Ok(Namespace::Uri(bytes_of(self.alloc, XML)?));
        }
        match self.namespaces.get(prefix.as_slice()) {
            Some(ns) => Ok(ns.copy()?),
            None => Err(Stop::NamePrefix(prefix.copy()?)),
        }
    }

    /// The URI of the library of a prefix.
    #[tactic(auto, unfolding(crate::specs::Reading::looked_up, crate::specs::ReadingParts::library_at))]
    pub(crate) fn library(&self, prefix: &Bytes) -> Result<Bytes, Stop>
        ensures { (rest : List Lexeme) → Finds (λ uri. uri) rest result (library_at (scope_in self.now) prefix.now rest) }
    {
        if self.any {
            return Ok(Bytes::new(self.alloc));
        }
        match self.libraries.get(prefix.as_slice()) {
            Some(uri) => Ok(uri.copy()?),
            None if prefix.as_slice() == "xsd".as_bytes() => Ok(bytes_of(self.alloc, XSD)?),
            None => Err(Stop::TypePrefix(prefix.copy()?)),
        }
    }
}

/// Whether a declaration may bind the prefix to the namespace: `xmlns` to none, and `xml` to its own.
fn may_bind(prefix: &Bytes, ns: &Namespace) -> bool
    ensures { result ≡ may_be_bound prefix.now ns.now }
{
    if prefix.as_slice() == "xmlns".as_bytes() {
        return false;
    }
    if prefix.as_slice() == "xml".as_bytes() {
        return is_xml(ns);
    }
    true
}

/// Whether it is the namespace of `xml`.
fn is_xml(ns: &Namespace) -> bool
    ensures { result ≡ is_of_xml ns.now }
{
    match ns {
        Namespace::Inherited => false,
        Namespace::Uri(uri) => uri.as_slice() == XML.as_bytes(),
    }
}
