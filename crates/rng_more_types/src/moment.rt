//! Moments: what literals of dates and times stand for.

ghost use Rattle.std.specs.Prelude.{◌≡◌, ◌≤◌, ◌<◌, ◌^◌, true};
ghost use Rattle.rng_more_types.specs.Literals.{is_zoned as is_zoned_by, taken_back, moment_at, within_a_day, is_zone, seconds_of};
ghost use Rattle.rng_more_types.specs.Told.{told};
ghost use Rattle.rng_more_types.specs.MoreTypes.{is_same_moment};

use crate::spaces::without_trailing_zeros;

/// How many seconds there are in a day.
pub(crate) const SECONDS_IN_DAY: u64 = 86400;

/// A zone as it is written (XML Schema Part 2, section 3.2.7.3).
#[derive(Clone, Copy)]
pub(crate) enum Zone {
    /// None.
    Unzoned,
    /// `Z`.
    Utc,
    /// Hours and minutes behind `+`.
    Ahead(u64, u64),
    /// Hours and minutes behind `-`.
    Behind(u64, u64),
}

/// Hours and minutes in seconds.
pub(crate) fn seconds_of(hours: u64, minutes: u64) -> u64
    requires hours { hours < 100 }
    requires minutes { minutes < 100 }
    ensures { result ≡ seconds_of hours minutes }
{
    60 * (60 * hours + minutes)
}

impl Zone {
    /// Whether there is one.
    fn is_zoned(self) -> bool
        ensures { result ≡ is_zoned_by self }
    {
        match self {
            Zone::Unzoned => false,
            Zone::Utc => true,
            Zone::Ahead(_, _) => true,
            Zone::Behind(_, _) => true,
        }
    }

    /// These seconds as they are in the zone of `Z`.
    fn taken_back(self, seconds: u64) -> u64
        requires right { is_zone self ≡ true }
        requires small { seconds < 2 ^ 60 }
        ensures { result ≡ taken_back self seconds }
    {
        match self {
            Zone::Unzoned => seconds,
            Zone::Utc => seconds,
            Zone::Ahead(hours, minutes) => seconds.saturating_sub(seconds_of(hours, minutes)),
            Zone::Behind(hours, minutes) => seconds + seconds_of(hours, minutes),
        }
    }
}

/// A moment: whether its zone is known, seconds, and the digits of their fraction without zeros at their end.
#[derive(Clone, Copy)]
pub(crate) struct Instant<'a> {
    pub(crate) zoned: bool,
    pub(crate) seconds: u64,
    pub(crate) fraction: &'a [u8],
}

/// The moment at these seconds of a day, in a zone.
#[tactic(auto, unfolding(crate::specs::Literals::moment_at))]
pub(crate) fn moment_at(day: u64, seconds: u64, fraction: &[u8], zone: Zone) -> Instant<'_>
    requires day { day < 2 ^ 40 }
    requires seconds { seconds < 2 ^ 20 }
    requires zone { is_zone zone ≡ true }
    ensures { told result ≡ moment_at day seconds fraction.now zone }
{
    Instant {
        zoned: zone.is_zoned(),
        seconds: zone.taken_back(SECONDS_IN_DAY * day + seconds),
        fraction: without_trailing_zeros(fraction),
    }
}

impl<'a> Instant<'a> {
    /// The same time in a day.
    pub(crate) fn within_a_day(self) -> Instant<'a>
        ensures { told result ≡ within_a_day (told self.entry) }
    {
        Instant {
            zoned: self.zoned,
            seconds: self.seconds % SECONDS_IN_DAY,
            fraction: self.fraction,
        }
    }

    /// Whether two moments are one.
    pub(crate) fn is_same(&self, other: &Instant<'_>) -> bool
        ensures { result ≡ is_same_moment (told self.now) (told other.now) }
    {
        self.zoned == other.zoned
            && self.seconds == other.seconds
            && self.fraction == other.fraction
    }
}
