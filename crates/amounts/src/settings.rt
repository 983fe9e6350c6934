// The settings of a run, and the counts that they bound.
ghost use Rattle.std.specs.Prelude.{◌≡◌, ◌+◌, ◌≤◌, leb, eqb};
ghost use Rattle.amounts.specs.Limits.{is_unit, is_policy, is_places, is_catalogue, requests_most};
ghost use Rattle.amounts.specs.Settings.{in_range};

use crate::bytes::Bytes;
use crate::range::one_to;

// The box that a run belongs to.
#[derive(Clone, Copy, Debug, PartialEq, Eq)]
pub struct Unit(pub u64);

impl Unit {
    pub const MOST: u64 = 4294967295;

    // One comparison, since 0 is in range too; like the other range tests it is handed to the reader by its name.
    pub fn is_unit(n: u64) -> bool
        ensures { result ≡ is_unit n }
    {
        n <= Unit::MOST
    }

    // Whether the unit is in its range.
    pub fn in_range(self) -> bool
        ensures { result ≡ is_unit self.0 }
    {
        Unit::is_unit(self.0)
    }
}

// 1 is GreedyDual-Size, 2 is GreedyDual-Size-Frequency.
// A number and no enum: `fresh`, `write_file` and `carry_on` promise refusal 1 for settings with any other.
#[derive(Clone, Copy, Debug, PartialEq, Eq)]
pub struct Policy(pub u64);

impl Policy {
    pub const SIZE: u64 = 1;

    pub const SIZE_FREQUENCY: u64 = 2;

    pub fn is_policy(n: u64) -> bool
        ensures { result ≡ is_policy n }
    {
        one_to(Policy::SIZE_FREQUENCY, n)
    }

    // Whether the policy is GreedyDual-Size, which counts no frequency.
    pub fn without_frequency(self) -> bool
        ensures { result ≡ eqb self.0 1 }
    {
        self.0 == Policy::SIZE
    }
}

// How many files are kept at once.
#[derive(Clone, Copy, Debug, PartialEq, Eq)]
pub struct Places(pub u64);

impl Places {
    pub const MOST: u64 = 4096;
    // In the table by file number: the file has no place. C lends the table, so it is a number.
    pub const NONE: u16 = 65535;

    pub fn is_places(n: u64) -> bool
        ensures { result ≡ is_places n }
    {
        one_to(Places::MOST, n)
    }

    // The places as the length of a table: a name and no `From`, which would not say that a length is meant.
    pub fn count(self) -> usize
        ensures { result ≡ self.0 }
    {
        self.0 as usize
    }
}

// How many file numbers there are.
#[derive(Clone, Copy, Debug, PartialEq, Eq)]
pub struct Catalogue(pub u64);

impl Catalogue {
    pub const MOST: u64 = 32768;

    pub fn is_catalogue(n: u64) -> bool
        ensures { result ≡ is_catalogue n }
    {
        one_to(Catalogue::MOST, n)
    }

    // Whether the catalogue is in its range.
    pub fn in_range(self) -> bool
        ensures { result ≡ is_catalogue self.0 }
    {
        Catalogue::is_catalogue(self.0)
    }

    // The catalogue as the length of a table, under a name as the places are.
    pub fn count(self) -> usize
        ensures { result ≡ self.0 }
    {
        self.0 as usize
    }
}

// How many requests a run has served.
#[derive(Clone, Copy, Debug, PartialEq, Eq)]
pub struct Requests(pub u64);

impl Requests {
    pub const MOST: u64 = 4294967295;

    // Whether a run may have served so many.
    pub fn in_range(self) -> bool
        ensures { result ≡ leb self.0 requests_most }
    {
        self.0 <= Requests::MOST
    }

    // Whether a run may serve so many more.
    pub fn leave_room(self, more: u64) -> bool
        requires { self.0 ≤ requests_most }
        ensures { result ≡ leb (self.0 + more) requests_most }
    {
        more <= Requests::MOST - self.0
    }
}

#[derive(Clone, Copy, Debug, PartialEq, Eq)]
pub struct Settings {
    pub unit: Unit,
    pub policy: Policy,
    pub capacity: Bytes,
    pub places: Places,
    pub catalogue: Catalogue,
}

impl Settings {
    // Whether each setting is in its range.
    #[tactic(auto, unfolding(crate::specs::Settings::in_range))]
    pub fn in_range(self) -> bool
        ensures { result ≡ in_range self }
    {
        self.unit.in_range()
            && Policy::is_policy(self.policy.0)
            && Bytes::is_capacity(self.capacity.0)
            && Places::is_places(self.places.0)
            && self.catalogue.in_range()
    }
}
