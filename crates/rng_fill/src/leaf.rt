//! Members of types, values of literals and letters, of which strings are made.

ghost use Rattle.std.specs.Prelude.{◌≡◌, ◌≤◌, length, replicate, IfOk, IsTrue};
ghost use Rattle.std.specs.List.{list_all};
ghost use Rattle.std.specs.Str.{is_utf8};
ghost use Rattle.rng_types.specs.Giving.{IsMemberAnswer};
ghost use Rattle.rng_types.specs.MemberTest.{most_excepts};
ghost use Rattle.rng_types.specs.OneToken.{one_token_of};
ghost use Rattle.rng_types.specs.WellMade.{is_well_made, is_sound_except};

use nx_base::memory::NoMemory;
use nx_base::sequence::Bytes;
use rng_types::datatype::{Datatype, Except};
use rng_types::fault::TypeFault;
use std::alloc::Global;

/// So many letters `a`.
pub(crate) fn letters(alloc: Global, count: usize) -> Result<Bytes, NoMemory>
    ensures { IfOk result (λ text. text ≡ replicate count 97) }
{
    Ok(Bytes::from_vec(vec![in alloc; b'a'; count]?))
}

/// A member of a type that no except takes away, and that is one token where one is asked for; none exactly where there is none.
#[inline(never)]
pub(crate) fn member_of(
    alloc: Global,
    datatype: &Datatype,
    excepts: &[Except],
    one_token: bool,
) -> Result<Option<Bytes>, NoMemory>
    requires made { IsTrue (is_well_made datatype.now) }
    requires sound { IsTrue (list_all (is_sound_except datatype.now) excepts.now) }
    requires few { length excepts.now ≤ most_excepts }
    ensures { IfOk result (IsMemberAnswer datatype.now excepts.now one_token) }
{
    match datatype.member(alloc, excepts, one_token) {
        Ok(found) => Ok(found),
        Err(TypeFault::NoMemory) => Err(NoMemory),
        Err(_) => unreachable!(),
    }
}

/// A text of one token that has the value of a literal, if there is one.
#[inline(never)]
pub(crate) fn token_of(
    alloc: Global,
    datatype: &Datatype,
    literal: &Bytes,
) -> Result<Option<Bytes>, NoMemory>
    requires { IsTrue (is_utf8 literal.now) }
    ensures { IfOk result (λ found. found ≡ one_token_of datatype.now literal.now) }
{
    let Ok(text) = str::from_utf8(literal.as_slice()) else {
        unreachable!();
    };
    datatype.as_one_token(alloc, text)
}
