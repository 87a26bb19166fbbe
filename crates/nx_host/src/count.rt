//! Counts that stay at their greatest value.

ghost use Rattle.std.specs.Prelude.{◌≡◌};
ghost use Rattle.nx_host.specs.Count.{one_more, Rose};

/// One more than the count, or the greatest count.
pub(crate) fn one_more(count: u64) -> u64
    ensures value { result ≡ one_more count }
    ensures rose { Rose count result }
{
    count.saturating_add(1)
}
