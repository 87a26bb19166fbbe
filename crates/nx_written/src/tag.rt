//! Start tags, piece by piece (XML 1.0, 3.1; Namespaces in XML 1.0, 3).

ghost use Rattle.std.specs.Prelude.{◌≡◌, [], ◌∷◌, ◌++◌, IfOk, OnOk, IsTrue};
ghost use Rattle.nx_base.specs.Characters.{is_of_chars};
ghost use Rattle.nx_base.specs.Names.{is_xml_name, is_attribute_name};
ghost use Rattle.nx_events.specs.Spelling.{spelled_all};
ghost use Rattle.nx_written.specs.Pieces.{AddsName, AddsPair};
ghost use Rattle.nx_written.specs.Spellings.{list_of};
ghost use Rattle.nx_written.specs.Tags.{attribute_of, declarations};

use crate::declaration::Declaration;
use crate::escape::push_escaped;
use crate::scope::Scope;
use crate::spelling::{attribute_spelling, element_spelling};
use nx_base::memory::NoMemory;
use nx_base::name::Name;
use nx_base::sequence::Bytes;
use std::alloc::Global;

/// Adds a name in two parts, `=` and a value in single quotes, behind a space.
fn push_pair(out: &mut Vec<u8>, front: &[u8], name: &[u8], value: &[u8]) -> Result<(), NoMemory>
    ensures { OnOk result (out.new.items ≡ out.old.items ++ spelled_all (attribute_of (front.now ++ name.now) value.now ∷ []) []) }
{
    out.push(b' ')?;
    out.extend_from_slice(front)?;
    out.extend_from_slice(name)?;
    out.extend_from_slice(b"='")?;
    push_escaped(out, value)?;
    out.push(b'\'')?;
    Ok(())
}

/// Adds a declaration.
fn push_declaration(out: &mut Vec<u8>, declaration: &Declaration) -> Result<(), NoMemory>
    ensures { OnOk result (out.new.items ≡ out.old.items ++ spelled_all (declarations (declaration.now ∷ [])) []) }
{
    let front: &[u8] = match declaration.prefix() {
        [] => b"xmlns",
        [_, ..] => b"xmlns:",
    };
    push_pair(out, front, declaration.prefix(), declaration.uri())
}

/// Adds a declaration, if there is one, and puts it in force.
fn declare(
    out: &mut Vec<u8>,
    scope: &mut Scope,
    declared: Option<Declaration>,
) -> Result<(), NoMemory>
    ensures { OnOk result ((out.new.items ≡ out.old.items ++ spelled_all (declarations (list_of declared)) [])
        × (scope.new ≡ scope.old ++ list_of declared)) }
{
    if let Some(declaration) = declared {
        push_declaration(out, &declaration)?;
        scope.push(declaration)?;
    }
    Ok(())
}

/// Begins a start tag: `<`, the name, and the declaration that it needs. Answers the name as it is written.
pub(crate) fn begin_tag(
    alloc: Global,
    out: &mut Vec<u8>,
    scope: &mut Scope,
    name: &Name,
) -> Result<Bytes, NoMemory>
    requires { IsTrue (is_xml_name name.now) }
    ensures { IfOk result (λ written. AddsName name.now written scope.old scope.new out.old.items out.new.items) }
{
    let spelling = element_spelling(alloc, scope, name)?;
    out.push(b'<')?;
    out.extend_from_slice(spelling.written.as_slice())?;
    declare(out, scope, spelling.declared)?;
    Ok(spelling.written)
}

/// Adds an attribute to a start tag, and the declaration that it needs behind it.
pub(crate) fn push_attribute(
    alloc: Global,
    out: &mut Vec<u8>,
    scope: &mut Scope,
    name: &Name,
    value: &Bytes,
) -> Result<(), NoMemory>
    requires { IsTrue (is_attribute_name name.now) }
    ensures { OnOk result (AddsPair name.now value.now scope.old scope.new out.old.items out.new.items) }
{
    let spelling = attribute_spelling(alloc, scope, name)?;
    push_pair(out, b"", spelling.written.as_slice(), value.as_slice())?;
    declare(out, scope, spelling.declared)?;
    Ok(())
}
