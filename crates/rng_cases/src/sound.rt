//! Whether a grammar that a test built is in order, as pruning asks for.

ghost use Rattle.std.specs.Prelude.{◌≡◌, IsTrue};
ghost use Rattle.std.specs.List.{All};
ghost use Rattle.std.specs.Str.{is_utf8};
ghost use Rattle.nx_base.specs.Characters.{is_of_chars as are_chars};
ghost use Rattle.rng_types.specs.Types.{Accepts};
ghost use Rattle.rng_types.specs.WellMade.{is_well_made};
ghost use Rattle.rng_core.specs.Soundness.{IsSoundClass, IsSoundPattern, IsSoundDefinition, IsSound};
ghost use Rattle.rng_core.specs.Meaning.{class_of, pattern_of, definition_of};

use nx_base::equal::Equal;
use nx_base::sequence::Bytes;
use rng_core::grammar::{Def, Grammar, Pat};
use rng_core::name_class::NameClass;
use rng_types::datatype::Datatype;
use rng_types::word::is_of_chars;

// Whether bytes are UTF-8.
fn is_text(bytes: &[u8]) -> bool
    ensures { result ≡ is_utf8 bytes.now }
{
    match str::from_utf8(bytes) {
        Ok(_) => true,
        Err(_) => false,
    }
}

// Whether a class is in order.
fn is_sound_class(class: &NameClass) -> bool
    ensures { IsTrue result → IsSoundClass (class_of class.now) }
{
    match class {
        NameClass::AnyName => true,
        NameClass::NsName(ns) => is_text(ns.as_slice()),
        NameClass::Name(name) => is_text(name.ns.as_slice()) && is_text(name.local.as_slice()),
        NameClass::Choice(a, b) => is_sound_class(a) && is_sound_class(b),
        NameClass::Except(a, b) => is_sound_class(a) && is_sound_class(b),
    }
}

// Whether bytes are a text of the type, of characters that XML allows.
fn is_literal(datatype: &Datatype, literal: &Bytes) -> bool
    ensures accepted { IsTrue result → Accepts datatype.now literal.now }
    ensures chars { IsTrue result → IsTrue (are_chars literal.now) }
{
    match str::from_utf8(literal.as_slice()) {
        Ok(text) => datatype.accepts(text) && is_of_chars(literal.as_slice()),
        Err(_) => false,
    }
}

// Whether a pattern is in order. Its types are the given one, without excepts; interleaves are in no schema here.
fn is_sound_pattern(count: usize, known: &Datatype, pattern: &Pat) -> bool
    requires { IsTrue (is_well_made known.now) }
    ensures { IsTrue result → IsSoundPattern count (pattern_of pattern.now) }
{
    match pattern {
        Pat::NotAllowed => true,
        Pat::Empty => true,
        Pat::Text => true,
        Pat::Typed(datatype, excepts) => datatype.equals(known) && excepts.is_empty(),
        Pat::Value(datatype, text) => datatype.equals(known) && is_literal(datatype, text),
        Pat::List(body) => is_sound_pattern(count, known, body),
        Pat::Attribute(class, body) => is_sound_class(class)
            && is_sound_pattern(count, known, body),
        Pat::Ref(number) => (*number as usize) < count,
        Pat::OneOrMore(body) => is_sound_pattern(count, known, body),
        Pat::Choice(a, b) => is_sound_pattern(count, known, a) && is_sound_pattern(count, known, b),
        Pat::Group(a, b) => is_sound_pattern(count, known, a) && is_sound_pattern(count, known, b),
        Pat::Interleave(_, _) => false,
    }
}

// Whether a definition is in order.
fn is_sound_definition(count: usize, known: &Datatype, def: &Def) -> bool
    requires { IsTrue (is_well_made known.now) }
    ensures { IsTrue result → IsSoundDefinition count (definition_of def.now) }
{
    is_sound_class(&def.class) && is_sound_pattern(count, known, &def.content)
}

// Whether the definitions are.
fn are_sound(count: usize, known: &Datatype, defs: &[Def]) -> bool
    requires { IsTrue (is_well_made known.now) }
    ensures { IsTrue result → All (λ def. IsSoundDefinition count (definition_of def)) defs.now }
{
    for def in defs {
        if !is_sound_definition(count, known, def) {
            return false;
        }
    }
    true
}

// Whether a grammar is in order, as pruning asks for.
pub(crate) fn is_sound(known: &Datatype, grammar: &Grammar) -> bool
    requires { IsTrue (is_well_made known.now) }
    ensures { IsTrue result → IsSound grammar.now }
{
    let count = grammar.defs.len();
    if count >= 100_000 {
        return false;
    }
    if !is_sound_pattern(count, known, &grammar.start) {
        return false;
    }
    are_sound(count, known, grammar.defs.as_slice())
}
