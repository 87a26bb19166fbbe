//! How names are written (Namespaces in XML 1.0, sections 3 to 6).

ghost use Rattle.std.specs.Prelude.{◌≡◌, ◌<◌, ◌∷◌, ◌++◌, [], Some, IfOk, IsTrue, length};
ghost use Rattle.nx_base.specs.Names.{is_namespace, is_xml_name, is_attribute_name};
ghost use Rattle.nx_events.specs.Scopes.{element_uri};
ghost use Rattle.nx_written.specs.Spellings.{IsChosen, SpellsElement, SpellsAttribute};

use crate::declaration::Declaration;
use crate::prefix::{free_prefix, prefix_of};
use crate::scope::Scope;
use nx_base::memory::NoMemory;
use nx_base::name::Name;
use nx_base::sequence::{Bytes, TryCopy};
use std::alloc::Global;

/// A prefix for a namespace, and the declaration that it needs.
#[derive(Drop)]
pub(crate) struct Chosen {
    pub(crate) prefix: Bytes,
    pub(crate) declared: Option<Declaration>,
}

/// A name as it is written, and the declaration that it needs.
#[derive(Drop)]
pub(crate) struct Spelling {
    pub(crate) written: Bytes,
    pub(crate) declared: Option<Declaration>,
}

/// A prefix for a namespace: one in force, or else a new one.
fn choose(alloc: Global, scope: &Scope, uri: &Bytes) -> Result<Chosen, NoMemory>
    requires some { 0 < length uri.now }
    requires namespace { IsTrue (is_namespace uri.now) }
    ensures { IfOk result (IsChosen scope.now uri.now) }
{
    if let Some(prefix) = prefix_of(scope, uri.as_slice()) {
        return Ok(Chosen {
            prefix: Bytes::from_vec(Vec::from_slice(alloc, prefix)?),
            declared: None,
        });
    }
    let prefix = free_prefix(alloc, scope)?;
    let declared = Declaration::new(prefix.copy()?, uri.copy()?);
    Ok(Chosen {
        prefix,
        declared: Some(declared),
    })
}

/// A prefix, a colon and a local part.
fn joined(alloc: Global, prefix: &[u8], local: &[u8]) -> Result<Bytes, NoMemory>
    ensures { IfOk result (λ written. written ≡ prefix.now ++ 58 ∷ local.now) }
{
    let mut written = Vec::from_slice(alloc, prefix)?;
    written.push(b':')?;
    written.extend_from_slice(local)?;
    Ok(Bytes::from_vec(written))
}

/// The namespace of an element without a prefix, and nothing where it has none.
#[tactic(auto, unfolding(nx_events::specs::Scopes::element_uri))]
fn default_uri(scope: &Scope) -> &[u8]
    ensures { Some result.now ≡ element_uri scope.now [] }
{
    match scope.last_uri(&[]) {
        Some(uri) => uri,
        None => &[],
    }
}

/// How the name of an element is written: without a prefix in the default namespace, and with one otherwise. An element of no namespace
/// ends the default one.
pub(crate) fn element_spelling(
    alloc: Global,
    scope: &Scope,
    name: &Name,
) -> Result<Spelling, NoMemory>
    requires { IsTrue (is_xml_name name.now) }
    ensures { IfOk result (SpellsElement scope.now name.now) }
{
    if default_uri(scope) == name.ns.as_slice() {
        return Ok(Spelling {
            written: name.local.copy()?,
            declared: None,
        });
    }
    if name.ns.is_empty() {
        return Ok(Spelling {
            written: name.local.copy()?,
            declared: Some(Declaration::new(Bytes::new(alloc), Bytes::new(alloc))),
        });
    }
    let chosen = choose(alloc, scope, &name.ns)?;
    Ok(Spelling {
        written: joined(alloc, chosen.prefix.as_slice(), name.local.as_slice())?,
        declared: chosen.declared,
    })
}

/// How the name of an attribute is written: without a prefix in no namespace, and with one otherwise.
pub(crate) fn attribute_spelling(
    alloc: Global,
    scope: &Scope,
    name: &Name,
) -> Result<Spelling, NoMemory>
    requires { IsTrue (is_attribute_name name.now) }
    ensures { IfOk result (SpellsAttribute scope.now name.now) }
{
    if name.ns.is_empty() {
        return Ok(Spelling {
            written: name.local.copy()?,
            declared: None,
        });
    }
    let chosen = choose(alloc, scope, &name.ns)?;
    Ok(Spelling {
        written: joined(alloc, chosen.prefix.as_slice(), name.local.as_slice())?,
        declared: chosen.declared,
    })
}
