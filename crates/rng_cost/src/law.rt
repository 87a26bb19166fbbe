//! Laws of costs. Nothing here runs.

ghost use Rattle.rng_cost.specs.Leaves.{LeavesCost};

/// The leaves of a pattern cost together what the pattern does, up to 10,000 events.
pub fn leaves_cost()
    ensures { LeavesCost }
{}
