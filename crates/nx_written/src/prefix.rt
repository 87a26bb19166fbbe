//! Prefixes of namespaces (Namespaces in XML 1.0, sections 3 to 5).

ghost use Rattle.std.specs.Prelude.{◌≡◌, true, false, Some, IfSome, MatchOption, IfOk};
ghost use Rattle.std.specs.Str.{bytes_eq};
ghost use Rattle.nx_base.specs.Names.{is_local};
ghost use Rattle.nx_events.specs.Scopes.{last_uri, xml_uri};
ghost use Rattle.nx_written.specs.Spellings.{Serves, IsFree};

use crate::declaration::Declaration;
use crate::scope::{Scope, numbered};
use nx_base::character::is_nc_name;
use nx_base::memory::NoMemory;
use nx_base::sequence::Bytes;
use std::alloc::Global;

/// The URI of the prefix `xml`, which needs no declaration.
const XML_URI: &[u8] = b"http://www.w3.org/XML/1998/namespace";

/// Whether it is an NCName.
fn is_local(name: &[u8]) -> bool
    ensures { result ≡ is_local name.now }
{
    match str::from_utf8(name) {
        Ok(text) => is_nc_name(text),
        Err(_) => false,
    }
}

/// Whether the last declaration of a prefix is of this URI.
fn is_last(scope: &Scope, prefix: &[u8], uri: &[u8]) -> bool
    ensures { result ≡ true → last_uri scope.now prefix.now ≡ Some uri.now }
{
    match scope.last_uri(prefix) {
        Some(bound) => bound == uri,
        None => false,
    }
}

/// Whether a name of this URI can have the prefix of a declaration.
fn serves(scope: &Scope, declaration: &Declaration, uri: &[u8]) -> bool
    ensures { result ≡ true → Serves scope.now declaration.now.prefix uri.now }
{
    let prefix = declaration.prefix();
    if declaration.uri() != uri {
        return false;
    }
    if prefix == b"xml".as_slice() || prefix == b"xmlns".as_slice() {
        return false;
    }
    is_local(prefix) && is_last(scope, prefix, uri)
}

/// The prefix of the innermost declaration of a URI that isn't hidden by another one.
fn declared_prefix<'a>(scope: &'a Scope, uri: &[u8]) -> Option<&'a [u8]>
    ensures { IfSome result (λ prefix. Serves scope.now prefix.now uri.now) }
{
    let declaration = scope.of_uri(uri)?;
    if serves(scope, declaration, uri) {
        return Some(declaration.prefix());
    }
    None
}

/// A prefix in force that names of a URI can have.
pub(crate) fn prefix_of<'a>(scope: &'a Scope, uri: &[u8]) -> Option<&'a [u8]>
    ensures { MatchOption result (bytes_eq uri.now xml_uri ≡ false) (λ prefix. Serves scope.now prefix.now uri.now) }
{
    if uri == XML_URI {
        return Some(b"xml");
    }
    declared_prefix(scope, uri)
}

/// `n` and the least number that no declaration in force has. What the scope tells of it is a guess to a contract, so it is asked.
pub(crate) fn free_prefix(alloc: Global, scope: &Scope) -> Result<Bytes, NoMemory>
    ensures { IfOk result (IsFree scope.now) }
{
    for number in scope.first_number()..u64::MAX {
        let prefix = numbered(alloc, number)?;
        if scope.last_uri(&prefix).is_none() {
            return Ok(Bytes::from_vec(prefix));
        }
    }
    Err(NoMemory)
}
