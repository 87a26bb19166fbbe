//! Elements of the definitions of a schema.

ghost use Rattle.std.specs.Prelude.{◌≡◌, true, IfOk, IfSome};
ghost use Rattle.rng_core.specs.Meaning.{class_of, definitions_of};
ghost use Rattle.rng_live.specs.Living.{has_some_name};
ghost use Rattle.rng_cost.specs.Least.{AreLeast};
ghost use Rattle.rng_fill_cases.specs.Usable.{IsUsable, IsReadFrom, HasHeads};

use nx_base::memory::NoMemory;
use rng_core::grammar::Grammar;
use rng_core::name_class::{Bearer, NameClass};
use rng_cost::Costs;
use rng_fill::contents::Contents;
use rng_fill::heads::Heads;
use rng_fill::law::filled_where_not_large;
use rng_fill::moves::{Move, Moves};
use rng_fill::names::element_name;
use std::alloc::Global;

/// The contents of a grammar with their leaves; none where one is large.
fn contents_of<'a>(
    alloc: Global,
    grammar: &'a Grammar,
    costs: &'a Costs,
) -> Result<Option<Contents<'a>>, NoMemory>
    requires usable { IsUsable grammar.now }
    requires least { AreLeast (definitions_of grammar.now) costs.now }
    ensures { IfOk result (λ found. IfSome found (IsReadFrom grammar.now)) }
{
    filled_where_not_large();
    if costs.is_large() {
        return Ok(None);
    }
    let contents = Contents::of(alloc, &grammar.defs, costs)?;
    Ok(Some(contents))
}

/// Whether a class has a name that an element can have.
fn has_name(alloc: Global, class: &NameClass) -> bool
    ensures { result ≡ true → has_some_name (class_of class.now) ≡ true }
{
    class.overlaps(alloc, class, Bearer::Element)
}

/// An element of a definition, with a name that is given; none where elements of the definition have no name.
fn element_named(
    alloc: Global,
    grammar: &Grammar,
    contents: &Contents<'_>,
    number: u32,
    heads: &mut Heads,
) -> Result<Option<Moves>, NoMemory>
    requires contents { IsReadFrom grammar.now contents.now }
    requires heads { HasHeads contents.now heads.old }
    ensures { HasHeads contents.now heads.new }
{
    let Some(def) = grammar.defs.get(number as usize) else {
        return Ok(None);
    };
    let Some(name) = element_name(alloc, &def.class)? else {
        return Ok(None);
    };
    let mut moves = Moves::new(alloc);
    moves.push(Move::Enter(name))?;
    contents.write_inside(number, heads, &mut moves)?;
    Ok(Some(moves))
}

/// An element of a definition; none where elements of the definition have no name.
fn element_of(
    alloc: Global,
    grammar: &Grammar,
    contents: &Contents<'_>,
    number: u32,
    heads: &mut Heads,
) -> Result<Option<Moves>, NoMemory>
    requires contents { IsReadFrom grammar.now contents.now }
    requires heads { HasHeads contents.now heads.old }
    ensures { HasHeads contents.now heads.new }
{
    let Some(def) = grammar.defs.get(number as usize) else {
        return Ok(None);
    };
    if has_name(alloc, &def.class) {
        let mut moves = Moves::new(alloc);
        contents.write_element(number, heads, &mut moves)?;
        return Ok(Some(moves));
    }
    Ok(None)
}

/// Adds two elements of a definition, one of which was given its name, and answers whether there are any.
fn add_elements(
    alloc: Global,
    grammar: &Grammar,
    contents: &Contents<'_>,
    number: u32,
    heads: &mut Heads,
    elements: &mut Vec<Moves>,
) -> Result<bool, NoMemory>
    requires contents { IsReadFrom grammar.now contents.now }
    requires heads { HasHeads contents.now heads.old }
    ensures { HasHeads contents.now heads.new }
{
    let Some(whole) = element_of(alloc, grammar, contents, number, heads)? else {
        return Ok(false);
    };
    elements.push(whole)?;
    let Some(named) = element_named(alloc, grammar, contents, number, heads)? else {
        return Ok(false);
    };
    elements.push(named)?;
    Ok(true)
}

/// Two elements of each definition of a grammar, one of which was given its name; none where a definition is large, or has no name.
pub(crate) fn elements_of(alloc: Global, grammar: &Grammar) -> Result<Option<Vec<Moves>>, NoMemory>
    requires { IsUsable grammar.now }
{
    let costs = Costs::of(alloc, &grammar.defs)?;
    let Some(contents) = contents_of(alloc, grammar, &costs)? else {
        return Ok(None);
    };
    let mut heads = contents.no_heads()?;
    let mut elements = Vec::new(alloc);
    for number in 0..grammar.defs.len() {
        if !add_elements(
            alloc,
            grammar,
            &contents,
            number as u32,
            &mut heads,
            &mut elements,
        )? {
            return Ok(None);
        }
    }
    Ok(Some(elements))
}

/// An element of one definition of a grammar; none where one is large, or this one has no name.
#[cfg(test)]
pub(crate) fn element_at(
    alloc: Global,
    grammar: &Grammar,
    number: u32,
) -> Result<Option<Moves>, NoMemory>
    requires { IsUsable grammar.now }
{
    let costs = Costs::of(alloc, &grammar.defs)?;
    let Some(contents) = contents_of(alloc, grammar, &costs)? else {
        return Ok(None);
    };
    let mut heads = contents.no_heads()?;
    let moves = element_of(alloc, grammar, &contents, number, &mut heads)?;
    Ok(moves)
}
