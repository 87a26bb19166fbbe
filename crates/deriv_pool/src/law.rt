//! Laws of pools. Nothing here runs.

ghost use Rattle.deriv_pool.specs.Single.{AnswersOnce, EarlierStay, HasNoDoubles, NumbersTell};

use crate::pool::Pool;

/// No two nodes stand for the same pattern, no two outers are the same, and no two states mean the same.
pub fn no_doubles(pool: &Pool)
    ensures { HasNoDoubles pool.now }
{
    pool.states.no_doubles();
}

/// Two states mean the same exactly where their numbers are equal.
pub fn same_number(pool: &Pool)
    ensures { NumbersTell pool.now }
{
    pool.states.no_doubles();
}

/// A call that is made again, on any later matcher, is answered by the same number; and so are two calls of which the answers
/// mean the same.
pub fn answers_once(pool: &Pool)
    ensures { AnswersOnce pool.now }
{
    pool.states.no_doubles();
}

/// The nodes, outers and states of a matcher are a front of those of each later one.
pub fn earlier_stay()
    ensures { EarlierStay }
{}
