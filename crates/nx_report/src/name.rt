//! Names of elements and attributes in a sentence.

ghost use Rattle.std.specs.Prelude.{◌≡◌, ◌≤◌, ◌-◌, ◌++◌, length, OnOk};
ghost use Rattle.std.specs.List.{suffix_len};
ghost use Rattle.nx_report.specs.Names.{is_no_brace, namespace_of, local_of, short_name, quoted_name};

use crate::printed::{push_printed, push_words};
use nx_base::memory::NoMemory;
use std::alloc::Global;

/// The namespace of the prefix `xml`, in braces.
const XML_NAMESPACE: &str = "{http://www.w3.org/XML/1998/namespace}";

/// How many bytes stand behind the last closing brace.
fn local_len(name: &[u8]) -> usize
    ensures len { result ≡ suffix_len is_no_brace name.now }
    ensures bound { result ≤ length name.now }
{
    name.iter().rev().take_while(|byte| **byte != b'}').count()
}

/// A name's namespace in its braces, which is nothing where it has none, and its local part.
fn split_name(name: &[u8]) -> (&[u8], &[u8])
    ensures namespace { result.0.now ≡ namespace_of name.now }
    ensures local { result.1.now ≡ local_of name.now }
{
    name.split_at(name.len() - local_len(name))
}

/// A name's namespace in its braces, which is nothing where it has none.
pub(crate) fn namespace_of(name: &[u8]) -> &[u8]
    ensures { result.now ≡ namespace_of name.now }
{
    split_name(name).0
}

/// Adds a name, without its namespace where that goes without saying.
fn push_name(alloc: Global, out: &mut Vec<u8>, own: &[u8], name: &[u8]) -> Result<(), NoMemory>
    ensures { OnOk result (out.new.items ≡ out.old.items ++ short_name own.now name.now) }
{
    let (namespace, local) = split_name(name);
    if namespace == XML_NAMESPACE.as_bytes() {
        push_words(out, "xml:")?;
        return push_printed(alloc, out, local);
    }
    if namespace == own {
        return push_printed(alloc, out, local);
    }
    if namespace == b"".as_slice() {
        push_words(out, "{}")?;
    }
    push_printed(alloc, out, name)
}

/// Adds a name in quotes, without its namespace where that goes without saying.
pub(crate) fn push_quoted_name(
    alloc: Global,
    out: &mut Vec<u8>,
    own: &[u8],
    name: &[u8],
) -> Result<(), NoMemory>
    ensures { OnOk result (out.new.items ≡ out.old.items ++ quoted_name own.now name.now) }
{
    out.push(b'"')?;
    push_name(alloc, out, own, name)?;
    out.push(b'"')?;
    Ok(())
}
