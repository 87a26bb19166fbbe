//! Datatypes by their names, and what is taken from them (ISO/IEC 19757-2, section 7.17).

ghost use Rattle.std.specs.Prelude.{◌≡◌, ◌≢◌, ◌↔◌, ◌<◌, ℕ, length, map, IsTrue, IfOk, Contains};
ghost use Rattle.std.specs.Str.{IsUtf8};
ghost use Rattle.rnc_parse.specs.declared.surface.TypeName.{TypeName};
ghost use Rattle.rng_types.specs.declared.fault.TypeFault.TheVariants.{TooManyExcepts as TooMany};
ghost use Rattle.rng_simplify.specs.CellTexts.{IsText, AreTexts};
ghost use Rattle.rng_simplify.specs.Cells.{cell_of, Cell};
ghost use Rattle.rng_simplify.specs.CellMeanings.{IsCell};
ghost use Rattle.rng_simplify.specs.Datatypes.{params_of, MayWrite, builtin_string, builtin_token};
ghost use Rattle.rng_simplify.specs.NodeForms.{IsKnown};
ghost use Rattle.rng_simplify.specs.Shown.{AreOfSchema};
ghost use Rattle.rng_simplify.specs.NodePlaces.{cell_parts};
ghost use Rattle.rng_simplify.specs.NodeTypes.{IsRefusalOf, Names, NamesValue, IsValue, AreValues, value_of, Lists};
ghost use Rattle.rng_simplify.specs.NodeTypes.{TakesBehind, TakesFrom, Takes, MakesValueType, MakesTypeTaken, MakesType};
ghost use Rattle.rng_simplify.specs.NodeTypes.{SetsType, MakesTypes, AreKnown};

use crate::copies::check_excepts;
use crate::fault::SchemaFault;
use crate::form::Forms;
use crate::node::{Node, NodeNumber, Sign};
use crate::order::Place;
use crate::shape::{Shape, ShapeNumber, Shapes};
use nx_base::cause::Cause;
use nx_base::memory::NoMemory;
use nx_base::sequence::{Bytes, TryCopy};
use nx_host::utf8::text_of;
use rnc_parse::surface::{Param as WrittenParam, Params, TypeName};
use rng_types::datatype::{Datatype, Except, Excepts, Param};
use rng_types::fault::TypeFault;
use rng_types::word::is_of_chars;
use std::alloc::Global;

/// The most values that may be taken from a type.
pub const MOST_EXCEPTS: u64 = 128;

/// The type of a value, or a type and what is taken from it.
#[derive(Drop)]
pub(crate) struct NodeType {
    pub(crate) datatype: Datatype,
    pub(crate) excepts: Excepts,
}

/// The params of a schema as those of a type.
fn params_of(alloc: Global, params: &[WrittenParam]) -> Result<Vec<Param>, NoMemory>
    ensures { IfOk result (λ copies. copies.items ≡ params_of params.now) }
{
    let mut copies = Vec::new(alloc);
    for param in params {
        copies.push(Param {
            name: param.name.copy()?,
            value: param.value.copy()?,
        })?;
    }
    Ok(copies)
}

/// The type of a name with these params.
fn datatype_of(
    alloc: Global,
    name: &TypeName,
    params: &[WrittenParam],
) -> Result<Datatype, SchemaFault>
    requires library { IsUtf8 name.now.library }
    requires local { IsUtf8 name.now.name }
    ensures { Names name.now params.now result }
{
    let params = params_of(alloc, params)?;
    let named = Datatype::named(
        alloc,
        text_of(&name.library),
        text_of(&name.name),
        params.as_slice(),
    );
    match named {
        Ok(datatype) => Ok(datatype),
        Err(why) => Err(refusal(why)),
    }
}

/// The refusal of a type by its name. A name is never refused for its excepts.
fn refusal(why: TypeFault) -> SchemaFault
    requires { why ≢ TooMany }
    ensures { IsRefusalOf why result }
{
    match why {
        TypeFault::UnknownType => SchemaFault::Unreadable(Cause::UnknownType),
        TypeFault::UnknownParam => SchemaFault::Unreadable(Cause::UnknownParam),
        TypeFault::BadParam => SchemaFault::Unreadable(Cause::BadParam),
        TypeFault::TooManyExcepts => unreachable!(),
        TypeFault::NoMemory => SchemaFault::NoMemory,
    }
}

/// Whether a schema may write the text as a value of the type.
fn may_write(datatype: &Datatype, text: &Bytes) -> bool
    requires { IsUtf8 text.now }
    ensures { IsTrue result ↔ MayWrite datatype.now text.now }
{
    is_of_chars(text.as_slice())
        && datatype.accepts(text_of(text))
        && datatype.has_few_digits(text_of(text))
}

/// The type of a value, of which its literal must be.
fn value_type(alloc: Global, name: &TypeName, text: &Bytes) -> Result<Datatype, SchemaFault>
    requires library { IsUtf8 name.now.library }
    requires local { IsUtf8 name.now.name }
    requires literal { IsUtf8 text.now }
    ensures { NamesValue name.now text.now result }
{
    let none: &[WrittenParam] = &[];
    let datatype = datatype_of(alloc, name, none)?;
    if !may_write(&datatype, text) {
        return Err(SchemaFault::Unreadable(Cause::BadValue));
    }
    Ok(datatype)
}

/// Whether the two are the same type.
fn same_type(a: &TypeName, b: &TypeName) -> bool
    ensures { IsTrue result ↔ (a.now ≡ b.now) }
{
    a.library.as_slice() == b.library.as_slice() && a.name.as_slice() == b.name.as_slice()
}

/// Whether it is the built-in type of strings.
fn is_string(name: &TypeName) -> bool
    ensures { IsTrue result ↔ (name.now ≡ builtin_string) }
{
    name.library.is_empty() && name.name.as_slice() == b"string".as_slice()
}

/// Whether it is the built-in type of tokens.
fn is_token(name: &TypeName) -> bool
    ensures { IsTrue result ↔ (name.now ≡ builtin_token) }
{
    name.library.is_empty() && name.name.as_slice() == b"token".as_slice()
}

/// Adds what a value of a type takes from the type itself, if it accepts it.
fn add_own(excepts: &mut Excepts, datatype: &Datatype, text: &Bytes) -> Result<(), SchemaFault>
    requires { IsUtf8 text.now }
    ensures { (name : TypeName) → TakesBehind name datatype.now (record { type = name; text = text.now }) excepts.old excepts.new result }
{
    if datatype.accepts(text_of(text)) {
        excepts.push(Except::Own(text.copy()?))?;
        Ok(())
    } else {
        Ok(())
    }
}

/// Adds what a value takes from a type. One of the type itself that the type with its params doesn't accept takes nothing
/// away.
fn add_except(
    excepts: &mut Excepts,
    name: &TypeName,
    datatype: &Datatype,
    value: &TypeName,
    text: &Bytes,
) -> Result<(), SchemaFault>
    requires { IsUtf8 text.now }
    ensures { TakesBehind name.now datatype.now (record { type = value.now; text = text.now }) excepts.old excepts.new result }
{
    if same_type(value, name) {
        add_own(excepts, datatype, text)
    } else if is_string(value) {
        excepts.push(Except::BuiltinString(text.copy()?))?;
        Ok(())
    } else if is_token(value) {
        excepts.push(Except::BuiltinToken(text.copy()?))?;
        Ok(())
    } else {
        Err(SchemaFault::Unreadable(Cause::UnsupportedExcept))
    }
}

/// Adds the nodes of the values of a shape, where its form is a choice of values, in order.
fn list_values(
    shapes: &Shapes,
    number: ShapeNumber,
    values: &mut Vec<NodeNumber>,
) -> Result<(), SchemaFault>
    requires { number < length shapes.now }
    ensures { Lists shapes.now number values.old.items values.new.items result }
{
    match shapes.shape(number) {
        Shape::Value(node) => {
            values.push(node)?;
            Ok(())
        }
        Shape::Joined(sign, first, second) => match sign {
            Sign::Choice => {
                list_values(shapes, first, values)?;
                list_values(shapes, second, values)?;
                Ok(())
            }
            Sign::Group => Ok(()),
            Sign::Interleave => Ok(()),
        },
        _ => Ok(()),
    }
}

/// What is taken from a type: the values of the form, which must be a choice of values, not too many.
fn excepts_of(
    alloc: Global,
    nodes: &[Node],
    shapes: &Shapes,
    name: &TypeName,
    datatype: &Datatype,
    number: ShapeNumber,
) -> Result<Excepts, SchemaFault>
    requires texts { AreTexts (map cell_of nodes.now) }
    requires of_schema { (count : ℕ) × AreOfSchema (map cell_of nodes.now) count shapes.now }
    requires within { number < length shapes.now }
    ensures { Takes (map cell_of nodes.now) shapes.now name.now datatype.now number result }
{
    match shapes.size(number).values {
        None => Err(SchemaFault::Unreadable(Cause::UnsupportedExcept)),
        Some(count) => {
            if count > MOST_EXCEPTS {
                return Err(SchemaFault::Unreadable(Cause::TooManyExcepts));
            }
            let mut values = Vec::new(alloc);
            list_values(shapes, number, &mut values)?;
            excepts_from(alloc, nodes, name, datatype, values.as_slice())
        }
    }
}

/// What the values of these nodes take from a type.
fn excepts_from(
    alloc: Global,
    nodes: &[Node],
    name: &TypeName,
    datatype: &Datatype,
    values: &[NodeNumber],
) -> Result<Excepts, SchemaFault>
    requires texts { AreTexts (map cell_of nodes.now) }
    requires values { AreValues (map cell_of nodes.now) values.now }
    ensures { TakesFrom (map cell_of nodes.now) name.now datatype.now values.now result }
{
    let mut excepts = Excepts::new(alloc);
    for value in values {
        add_value(&mut excepts, nodes, name, datatype, *value)?;
    }
    Ok(excepts)
}

/// Adds what the value of a node takes from a type.
fn add_value(
    excepts: &mut Excepts,
    nodes: &[Node],
    name: &TypeName,
    datatype: &Datatype,
    value: NodeNumber,
) -> Result<(), SchemaFault>
    requires texts { AreTexts (map cell_of nodes.now) }
    requires value { IsValue (map cell_of nodes.now) value }
    ensures { TakesBehind name.now datatype.now (value_of (map cell_of nodes.now) value) excepts.old excepts.new result }
{
    match &nodes[value.0] {
        Node::Value(value, text) => add_except(excepts, name, datatype, value, text),
        _ => unreachable!(),
    }
}

/// The type of a node that has one.
fn type_of(
    alloc: Global,
    nodes: &[Node],
    forms: &Forms,
    node: &Node,
) -> Result<Option<NodeType>, SchemaFault>
    requires texts { AreTexts (map cell_of nodes.now) }
    requires of_schema { (count : ℕ) × AreOfSchema (map cell_of nodes.now) count forms.now.shapes }
    requires text { IsText (cell_of node.now) }
    requires known { (j : ℕ) → Contains (cell_parts (cell_of node.now)) j → IsKnown forms.now.shapes forms.now.of.items j }
    ensures { MakesType (map cell_of nodes.now) forms.now (cell_of node.now) result }
{
    match node {
        Node::Value(name, text) => value_node(alloc, name, text),
        Node::Typed(name, params, except) => {
            let except = forms.of(Place(except.0));
            type_node(alloc, nodes, &forms.shapes, name, params, except)
        }
        _ => Ok(None),
    }
}

/// The type of a value's node.
fn value_node(alloc: Global, name: &TypeName, text: &Bytes) -> Result<Option<NodeType>, SchemaFault>
    requires library { IsUtf8 name.now.library }
    requires local { IsUtf8 name.now.name }
    requires literal { IsUtf8 text.now }
    ensures { MakesValueType name.now text.now result }
{
    let datatype = value_type(alloc, name, text)?;
    Ok(Some(NodeType {
        datatype,
        excepts: Excepts::new(alloc),
    }))
}

/// The type of a type's node, from which the shape is taken.
fn type_node(
    alloc: Global,
    nodes: &[Node],
    shapes: &Shapes,
    name: &TypeName,
    params: &Params,
    except: ShapeNumber,
) -> Result<Option<NodeType>, SchemaFault>
    requires texts { AreTexts (map cell_of nodes.now) }
    requires of_schema { (count : ℕ) × AreOfSchema (map cell_of nodes.now) count shapes.now }
    requires within { except < length shapes.now }
    requires library { IsUtf8 name.now.library }
    requires local { IsUtf8 name.now.name }
    ensures { MakesTypeTaken (map cell_of nodes.now) shapes.now name.now params.now except result }
{
    let datatype = datatype_of(alloc, name, params.as_slice())?;
    let excepts = excepts_of(alloc, nodes, shapes, name, &datatype, except)?;
    Ok(Some(NodeType { datatype, excepts }))
}

/// Sets the type of a node, where it is one that has one.
fn set_type(
    types: &mut Vec<Option<NodeType>>,
    alloc: Global,
    nodes: &[Node],
    forms: &Forms,
    i: Place,
) -> Result<(), SchemaFault>
    requires texts { AreTexts (map cell_of nodes.now) }
    requires of_schema { (count : ℕ) × AreOfSchema (map cell_of nodes.now) count forms.now.shapes }
    requires known { (c : Cell) → IsCell (map cell_of nodes.now) i c → (j : ℕ) → Contains (cell_parts c) j
        → IsKnown forms.now.shapes forms.now.of.items j }
    requires all { length types.old.items ≡ length nodes.now }
    ensures { SetsType (map cell_of nodes.now) forms.now i types.old.items types.new.items result }
{
    if i.0 < nodes.len() {
        let known = type_of(alloc, nodes, forms, &nodes[i.0])?;
        types[i.0] = known;
        Ok(())
    } else {
        Ok(())
    }
}

/// No types yet, of so many nodes.
fn no_types(alloc: Global, count: usize) -> Result<Vec<Option<NodeType>>, NoMemory>
    ensures { IfOk result (λ types. length types.items ≡ count) }
{
    let mut types = Vec::with_capacity(alloc, count)?;
    for _ in 0..count {
        types.push(None)?;
    }
    Ok(types)
}

/// The types of the nodes of an order that have one, in order, so that what is taken from a type is known before the type.
/// What they take away is counted before memory is spent on it.
pub(crate) fn types_of(
    alloc: Global,
    nodes: &[Node],
    forms: &Forms,
    order: &[Place],
) -> Result<Vec<Option<NodeType>>, SchemaFault>
    requires texts { AreTexts (map cell_of nodes.now) }
    requires of_schema { (count : ℕ) × AreOfSchema (map cell_of nodes.now) count forms.now.shapes }
    requires known { AreKnown (map cell_of nodes.now) order.now forms.now }
    ensures { MakesTypes (map cell_of nodes.now) order.now forms.now result }
{
    check_excepts(alloc, nodes, forms, order)?;
    let mut types = no_types(alloc, nodes.len())?;
    for i in order {
        set_type(&mut types, alloc, nodes, forms, *i)?;
    }
    Ok(types)
}
