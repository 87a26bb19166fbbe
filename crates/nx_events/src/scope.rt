//! Namespace declarations in force (Namespaces in XML 1.0, sections 3, 5 and 6).

ghost use Rattle.std.specs.Prelude.{◌≡◌, ◌++◌, ◌∷◌, [], length, take, Some, option_copied, IfOk, OnOk, OnErr};
ghost use Rattle.nx_events.specs.declared.scope.Binding.{Binding};
ghost use Rattle.nx_events.specs.Places.{last_named};
ghost use Rattle.nx_events.specs.Scopes.{last_uri, bound_uri, element_uri, attribute_uri};

use crate::shared_pairs::SharedPairs;
use crate::stack::Named;
use nx_base::memory::NoMemory;
use nx_base::sequence::{Bytes, TryCopy};
use std::alloc::Global;
use std::marker::Model;
use std::rc::Rc;

/// A prefix, empty for the default namespace, and the URI that it is bound to.
#[derive(Drop)]
pub struct Binding {
    pub prefix: Bytes,
    pub uri: Bytes,
}

/// A pair in one place for all copies: states are kept by the ten thousand, and mostly the same few pairs are in force in all of them.
/// To a contract it is the pair.
#[derive(Drop)]
pub struct SharedBinding {
    pair: Rc<Binding>,
}

impl Model for SharedBinding {
    ghost use Rattle.nx_events.specs.declared.scope.Binding.{Binding};

    ghost Value = { Binding };

    ghost view = { λ shared. shared.pair.value };
}

impl SharedBinding {
    /// This pair.
    pub(crate) fn new(alloc: Global, pair: Binding) -> Result<SharedBinding, NoMemory>
        ensures { IfOk result (λ shared. shared ≡ pair) }
    {
        Ok(SharedBinding {
            pair: Rc::new(alloc, pair)?,
        })
    }

    /// The pair.
    pub fn get(&self) -> &Binding
        ensures { result.now ≡ self.now }
    {
        &self.pair
    }
}

impl TryCopy for SharedBinding {
    fn copy(&self) -> Result<SharedBinding, NoMemory> {
        Ok(SharedBinding {
            pair: self.pair.clone()?,
        })
    }
}

impl Named for SharedBinding {
    ghost name_of = { λ binding. binding.prefix };

    fn name(&self) -> &[u8] {
        self.get().prefix.as_slice()
    }
}

/// Pairs in the order of their declarations, in which the last one of a prefix is found at once. Most tags and most texts declare
/// none: then they take no memory. To a contract they are the list.
#[derive(Drop)]
pub struct Bindings {
    alloc: Global,
    pairs: Option<SharedPairs>,
}

impl Model for Bindings {
    ghost use Rattle.std.specs.Prelude.{List, [], unwrap_or};
    ghost use Rattle.nx_events.specs.declared.scope.Binding.{Binding};

    ghost Value = { List Binding };

    ghost view = { λ bindings. unwrap_or bindings.pairs [] };
}

impl Bindings {
    /// No pairs.
    pub(crate) fn new(alloc: Global) -> Bindings
        ensures { result ≡ [] }
    {
        Bindings { alloc, pairs: None }
    }

    /// The pairs, in order.
    pub fn as_slice(&self) -> &[SharedBinding]
        ensures { result.now ≡ self.now }
    {
        match &self.pairs {
            None => &[],
            Some(pairs) => pairs.as_slice(),
        }
    }

    /// How many pairs there are.
    pub(crate) fn len(&self) -> usize
        ensures { result ≡ length self.now }
    {
        self.as_slice().len()
    }

    /// The last pair of the prefix.
    pub(crate) fn last_named(&self, prefix: &[u8]) -> Option<&Binding>
        ensures { option_copied result ≡ last_named (λ (binding : Binding). binding.prefix) prefix.now self.now }
    {
        let pairs = self.pairs.as_ref()?;
        let shared = pairs.last_named(prefix)?;
        Some(shared.get())
    }

    /// Adds copies of pairs at the end, or leaves the list as it is.
    pub(crate) fn append(&mut self, more: &[SharedBinding]) -> Result<(), NoMemory>
        ensures ok { OnOk result (self.new ≡ self.old ++ more.now) }
        ensures err { OnErr result (self.new ≡ self.old) }
    {
        // Most tags declare nothing.
        if more.is_empty() {
            return Ok(());
        }
        if let Some(pairs) = &mut self.pairs {
            return pairs.append(more);
        }
        let mut pairs = SharedPairs::new(self.alloc)?;
        pairs.append(more)?;
        self.pairs = Some(pairs);
        Ok(())
    }

    /// Adds a pair at the end.
    pub(crate) fn push(&mut self, binding: Binding) -> Result<(), NoMemory>
        ensures ok { OnOk result (self.new ≡ self.old ++ binding ∷ []) }
        ensures err { OnErr result (self.new ≡ self.old) }
    {
        let shared = SharedBinding::new(self.alloc, binding)?;
        if let Some(pairs) = &mut self.pairs {
            return pairs.push(shared);
        }
        let mut pairs = SharedPairs::new(self.alloc)?;
        pairs.push(shared)?;
        self.pairs = Some(pairs);
        Ok(())
    }

    /// Leaves so many pairs at the front.
    pub(crate) fn shorten(&mut self, n: usize)
        ensures { self.new ≡ take n self.old }
    {
        if let Some(pairs) = &mut self.pairs {
            pairs.shorten(n);
        }
    }
}

impl TryCopy for Bindings {
    fn copy(&self) -> Result<Bindings, NoMemory> {
        let mut copied = Bindings::new(self.alloc);
        if let Some(pairs) = &self.pairs {
            copied.pairs = Some(pairs.share()?);
        }
        Ok(copied)
    }
}

/// The URI of the prefix `xml`.
pub(crate) const XML_URI: &[u8] = b"http://www.w3.org/XML/1998/namespace";

// The URI of the last pair of the prefix.
fn last_uri<'a>(bindings: &'a Bindings, prefix: &[u8]) -> Option<&'a [u8]>
    ensures { option_copied result ≡ last_uri bindings.now prefix.now }
{
    match bindings.last_named(prefix) {
        None => None,
        Some(binding) => Some(binding.uri.as_slice()),
    }
}

// The URI of the last pair of the prefix among those around a tag and then its own.
fn last_uri_of_two<'a>(outer: &'a Bindings, own: &'a Bindings, prefix: &[u8]) -> Option<&'a [u8]>
    ensures { option_copied result ≡ last_uri (outer.now ++ own.now) prefix.now }
{
    // Most tags declare nothing.
    if own.len() == 0 {
        return last_uri(outer, prefix);
    }
    match last_uri(own, prefix) {
        Some(uri) => Some(uri),
        None => last_uri(outer, prefix),
    }
}

// The URI that a prefix is bound to.
#[tactic(auto, unfolding(crate::specs::Scopes::bound_uri))]
fn bound_uri<'a>(outer: &'a Bindings, own: &'a Bindings, prefix: &[u8]) -> Option<&'a [u8]>
    ensures { option_copied result ≡ bound_uri (outer.now ++ own.now) prefix.now }
{
    if prefix == b"xml".as_slice() {
        Some(XML_URI)
    } else {
        last_uri_of_two(outer, own, prefix)
    }
}

/// The namespace of an element without a prefix, and nothing where it has none.
#[tactic(auto, unfolding(crate::specs::Scopes::element_uri))]
pub(crate) fn default_uri(bindings: &Bindings) -> &[u8]
    ensures { Some result.now ≡ element_uri bindings.now [] }
{
    match last_uri(bindings, &[]) {
        Some(uri) => uri,
        None => &[],
    }
}

/// The namespace of an element of this prefix that has these declarations around it and these of its own.
#[tactic(auto, unfolding(crate::specs::Scopes::element_uri))]
pub(crate) fn element_uri<'a>(
    outer: &'a Bindings,
    own: &'a Bindings,
    prefix: &[u8],
) -> Option<&'a [u8]>
    ensures { option_copied result ≡ element_uri (outer.now ++ own.now) prefix.now }
{
    match prefix {
        [] => match last_uri_of_two(outer, own, prefix) {
            Some(uri) => Some(uri),
            None => Some(&[]),
        },
        [_, ..] => bound_uri(outer, own, prefix),
    }
}

/// The namespace of an attribute of this prefix, of such an element.
#[tactic(auto, unfolding(crate::specs::Scopes::attribute_uri))]
pub(crate) fn attribute_uri<'a>(
    outer: &'a Bindings,
    own: &'a Bindings,
    prefix: &[u8],
) -> Option<&'a [u8]>
    ensures { option_copied result ≡ attribute_uri (outer.now ++ own.now) prefix.now }
{
    match prefix {
        [] => Some(&[]),
        [_, ..] => bound_uri(outer, own, prefix),
    }
}
