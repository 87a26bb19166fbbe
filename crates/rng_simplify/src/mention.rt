//! The files that a file mentions, in order.

ghost use Rattle.std.specs.Prelude.{◌≡◌, ◌++◌, ◌∷◌, [], reverse, IfOk};
ghost use Rattle.rnc_parse.specs.Views.{pattern_of, item_of, items_in, replacement_of, replacements_in, surface_of};
ghost use Rattle.rng_simplify.specs.Classes.{namespace_in as namespace_in_file};
ghost use Rattle.rng_simplify.specs.KeptMentions.{kept_of_all, mentions_of_each};
ghost use Rattle.rng_simplify.specs.References.{mentions, mentions_of as mentions_of_file, mentions_of_item};
ghost use Rattle.rng_simplify.specs.References.{mentions_of_items, mentions_of_replacement, mentions_anew};

use nx_base::memory::NoMemory;
use nx_base::sequence::{Bytes, TryCopy};
use rnc_parse::surface::{FileReference, Item, Namespace, Pattern, Replacement, Surface};
use std::alloc::Global;

/// A file that another one refers to.
#[derive(Drop)]
pub(crate) struct Mention {
    /// The reference as it is written.
    pub(crate) text: Bytes,
    /// The namespace that the file inherits.
    pub(crate) inherited: Bytes,
}

/// A namespace of a file that inherits this one.
pub(crate) fn namespace_in(inherited: &Bytes, namespace: &Namespace) -> Result<Bytes, NoMemory>
    ensures { IfOk result (λ ns. ns ≡ namespace_in_file inherited.now namespace.now) }
{
    match namespace {
        Namespace::Inherited => Ok(inherited.copy()?),
        Namespace::Uri(uri) => Ok(uri.copy()?),
    }
}

/// What the file mentions, where it inherits the namespace. The first stands last.
pub(crate) fn mentions_of(
    alloc: Global,
    inherited: &Bytes,
    surface: &Surface,
) -> Result<Vec<Mention>, NoMemory>
    ensures { IfOk result (λ all. all.items ≡ reverse (kept_of_all inherited.now (mentions_of_file (surface_of surface.now)))) }
{
    let mut found = Vec::new(alloc);
    add_surface(inherited, surface, &mut found)?;
    found.reverse();
    Ok(found)
}

/// Adds what the file mentions.
fn add_surface(
    inherited: &Bytes,
    surface: &Surface,
    found: &mut Vec<Mention>,
) -> Result<(), NoMemory>
    ensures { IfOk result (λ _. found.new.items ≡ found.old.items ++ kept_of_all inherited.now
        (mentions_of_file (surface_of surface.now))) }
{
    match surface {
        Surface::Pattern(pattern) => add_pattern(inherited, pattern, found),
        Surface::Grammar(items) => add_items(inherited, items.as_slice(), found),
    }
}

/// Adds a file.
fn add_reference(
    inherited: &Bytes,
    reference: &FileReference,
    found: &mut Vec<Mention>,
) -> Result<(), NoMemory>
    ensures { IfOk result (λ _. found.new.items
        ≡ found.old.items
        ++ record { text = reference.now.uri; inherited = namespace_in_file inherited.now reference.now.namespace } ∷ []) }
{
    let text = reference.uri.copy()?;
    let inherited = namespace_in(inherited, &reference.namespace)?;
    found.push(Mention { text, inherited })?;
    Ok(())
}

/// Adds what a pattern mentions.
#[cycle(mentions)]
fn add_pattern(
    inherited: &Bytes,
    pattern: &Pattern,
    found: &mut Vec<Mention>,
) -> Result<(), NoMemory>
    ensures { IfOk result (λ _. found.new.items ≡ found.old.items ++ kept_of_all inherited.now (mentions (pattern_of pattern.now))) }
{
    match pattern {
        Pattern::Element(_, body)
        | Pattern::Attribute(_, body)
        | Pattern::List(body)
        | Pattern::Mixed(body)
        | Pattern::DataExcept(_, _, body)
        | Pattern::Optional(body)
        | Pattern::ZeroOrMore(body)
        | Pattern::OneOrMore(body) => add_pattern(inherited, body, found),
        Pattern::External(reference) => add_reference(inherited, reference, found),
        Pattern::Grammar(items) => add_items(inherited, items.as_slice(), found),
        Pattern::Choice(patterns) => add_patterns(inherited, patterns.as_slice(), found),
        Pattern::Group(patterns) => add_patterns(inherited, patterns.as_slice(), found),
        Pattern::Interleave(patterns) => add_patterns(inherited, patterns.as_slice(), found),
        Pattern::Ref(_)
        | Pattern::ParentRef(_)
        | Pattern::Empty
        | Pattern::Text
        | Pattern::NotAllowed
        | Pattern::Value(_, _)
        | Pattern::Data(_, _) => Ok(()),
    }
}

/// Adds what patterns mention.
#[cycle(mentions)]
fn add_patterns(
    inherited: &Bytes,
    patterns: &[Pattern],
    found: &mut Vec<Mention>,
) -> Result<(), NoMemory>
    ensures { IfOk result (λ _. found.new.items ≡ found.old.items ++ kept_of_all inherited.now (mentions_of_each patterns.now)) }
{
    for pattern in patterns {
        add_pattern(inherited, pattern, found)?;
    }
    Ok(())
}

/// Adds what items mention.
#[cycle(mentions)]
fn add_items(inherited: &Bytes, items: &[Item], found: &mut Vec<Mention>) -> Result<(), NoMemory>
    ensures { IfOk result (λ _. found.new.items ≡ found.old.items ++ kept_of_all inherited.now (mentions_of_items (items_in items.now))) }
{
    for item in items {
        add_item(inherited, item, found)?;
    }
    Ok(())
}

/// Adds what an item mentions.
#[cycle(mentions)]
fn add_item(inherited: &Bytes, item: &Item, found: &mut Vec<Mention>) -> Result<(), NoMemory>
    ensures { IfOk result (λ _. found.new.items ≡ found.old.items ++ kept_of_all inherited.now (mentions_of_item (item_of item.now))) }
{
    match item {
        Item::Define(_, _, pattern) => add_pattern(inherited, pattern, found),
        Item::Div(inside) => add_items(inherited, inside.as_slice(), found),
        Item::Include(reference, replacements) => {
            add_reference(inherited, reference, found)?;
            add_replacements(inherited, replacements.as_slice(), found)
        }
    }
}

/// Adds what is mentioned in the braces of an include.
#[cycle(mentions)]
fn add_replacements(
    inherited: &Bytes,
    replacements: &[Replacement],
    found: &mut Vec<Mention>,
) -> Result<(), NoMemory>
    ensures { IfOk result (λ _. found.new.items ≡ found.old.items ++ kept_of_all inherited.now
        (mentions_anew (replacements_in replacements.now))) }
{
    for replacement in replacements {
        add_replacement(inherited, replacement, found)?;
    }
    Ok(())
}

/// Adds what one of these mentions.
#[cycle(mentions)]
fn add_replacement(
    inherited: &Bytes,
    replacement: &Replacement,
    found: &mut Vec<Mention>,
) -> Result<(), NoMemory>
    ensures { IfOk result (λ _. found.new.items ≡ found.old.items ++ kept_of_all inherited.now
        (mentions_of_replacement (replacement_of replacement.now))) }
{
    match replacement {
        Replacement::Define(_, _, pattern) => add_pattern(inherited, pattern, found),
        Replacement::Div(inside) => add_replacements(inherited, inside.as_slice(), found),
    }
}
