//! The definitions that have a name.

ghost use Rattle.std.specs.Prelude.{◌≡◌, ◌<◌, ◌≤◌, ◌^◌, length, map, drop, IfOk, if◌then◌else◌};
ghost use Rattle.rng_core.specs.Meaning.{class_of, definition_of};
ghost use Rattle.rng_core.specs.Names.{has_name};
ghost use Rattle.rng_core.specs.Patterns.{ref};
ghost use Rattle.rng_kept.specs.SmallPatterns as small;
ghost use Rattle.rng_kept.specs.Standing.{known_from};
ghost use Rattle.deriv_nodes.specs.Numbers.{at, IsAt};
ghost use Rattle.deriv_states.specs.Places.{LaterPlaces};

use deriv_states::states::States;
use nx_base::memory::NoMemory;
use nx_base::name::Name;
use rng_core::grammar::Def;

/// Where a definition has the name, a choice of it and of those that are known; else these alone.
fn with_definition(
    states: &mut States,
    def: &Def,
    number: u32,
    name: &Name,
    known: usize,
) -> Result<usize, NoMemory>
    requires { known < length states.old.patterns }
    ensures later { LaterPlaces states.old states.new }
    ensures made { IfOk result (IsAt states.new.patterns
        (if has_name (class_of def.now.class) name.now then small.choice_of (ref number) (at states.old.patterns known)
        else at states.old.patterns known)) }
{
    if !def.class.has(name) {
        return Ok(known);
    }
    let one = states.reference(number)?;
    states.choice_of(one, known)
}

/// The node of the choice of all definitions that have a name; notAllowed where none has it.
pub(crate) fn known(states: &mut States, defs: &[Def], name: &Name) -> Result<usize, NoMemory>
    requires { length defs.now < 2 ^ 32 }
    ensures later { LaterPlaces states.old states.new }
    ensures made { IfOk result (IsAt states.new.patterns (known_from (map definition_of defs.now) name.now 0)) }
{
    let mut known = states.not_allowed()?;
    let mut number = defs.len();
    while number > 0 {
        number -= 1;
        known = with_definition(states, &defs[number], number as u32, name, known)?;
    }
    Ok(known)
}
