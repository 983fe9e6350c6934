// The cost of fetching a file, and sums of costs.
ghost use Rattle.std.specs.Prelude.{◌≡◌, true, ◌+◌, ◌<◌, ◌≤◌};
ghost use Rattle.amounts.specs.Limits.{is_cost, is_size, cost_most, requests_most, word, total_of};
ghost use Rattle.amounts.specs.Worth.{in_force};

use crate::bytes::Bytes;
use crate::range::total_of;
use std::ops::{Add, AddAssign};

#[derive(Clone, Copy, Debug, PartialEq, Eq, PartialOrd, Ord)]
pub struct Cost(pub u64);

impl Cost {
    pub const MOST: u64 = 65535;

    pub const PACKET: u64 = 536;

    pub const PACKETS_LEAST: u64 = 2;

    // Whether a number may be the cost in a request: one comparison, since 0 is in range too.
    pub fn is_cost(n: u64) -> bool
        ensures { result ≡ is_cost n }
    {
        n <= Cost::MOST
    }

    // The cost of a request, of a number that was found in range.
    pub fn asked(n: u64) -> Cost
        requires { is_cost n ≡ true }
        ensures { result.0 ≡ n }
    {
        Cost(n)
    }

    // The cost in force: the packet estimate stands in for 0.
    pub fn in_force(self, size: Bytes) -> Cost
        requires { is_size size.0 ≡ true }
        ensures { result.0 ≡ in_force size.0 self.0 }
    {
        if self.0 == 0 {
            return Cost(Cost::PACKETS_LEAST + size.0 / Cost::PACKET);
        }
        self
    }

    // Whether so many files can cost so much.
    pub fn is_total_of(self, files: u64) -> bool
        requires { files ≤ requests_most }
        ensures { result ≡ total_of cost_most files self.0 }
    {
        total_of(Cost::MOST, files, self.0)
    }
}

// Two costs together.
impl Add for Cost {
    type Output = Cost;

    ghost can_add = { λ a b. a.0 + b.0 < word };

    ghost add_gives = { λ a b r. r.0 ≡ a.0 + b.0 };

    fn add(self, more: Cost) -> Cost {
        Cost(self.0 + more.0)
    }
}

impl AddAssign for Cost {
    ghost can_add_assign = { λ a b. a.0 + b.0 < word };

    ghost add_assign_gives = { λ a b r. r.0 ≡ a.0 + b.0 };

    fn add_assign(&mut self, more: Cost) {
        *self = *self + more;
    }
}
