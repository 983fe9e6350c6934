// A number past 64 bits, in two words: lifts of 2 to the 60th, and what is left below one lift.
#![tactic(auto)]

ghost use Rattle.std.specs.Prelude.{◌≡◌, ◌+◌, ◌*◌, ◌/◌, ◌%◌, ◌<◌, ◌≤◌};
ghost use Rattle.amounts.specs.Limits.{word, lift, requests_most};
ghost use Rattle.amounts.specs.Worth.{worth_most};

use amounts::{Cost, Key};
use std::marker::Model;
use std::ops::AddAssign;

// The words are compared in this order, the lifts first.
#[derive(Clone, Copy, Debug, PartialEq, Eq, PartialOrd, Ord)]
pub struct Large {
    high: u64,
    low: u64,
}

impl Model for Large {
    ghost use Rattle.std.specs.Prelude.{ℕ};

    ghost Value = { ℕ };

    ghost use Rattle.large.specs.Large.{value_of, Normal, words_of, words_back};

    ghost view = { value_of };

    ghost invariant = { Normal };

    ghost inverse = { words_of };

    ghost inverse_ok = { words_back };
}

impl Large {
    // The costs that come to one lift at the scale: 2 to the 36th.
    const COSTS: u64 = 68719476736;

    // So many lifts, and an amount of any word beside them.
    pub fn whole(lifts: u64, left: Key) -> Large
        requires { lifts + 16 < word }
        ensures { result ≡ lifts * lift + left.0 }
    {
        Large {
            high: lifts + left.0 / Key::LIFT,
            low: left.0 % Key::LIFT,
        }
    }

    // The largest worth for each of so many requests: the largest cost at the scale.
    pub fn worths(requests: u64) -> Large
        requires { requests ≤ requests_most }
        ensures { result ≡ requests * worth_most }
    {
        let costs = requests * Cost::MOST;
        Large {
            high: costs / Large::COSTS,
            low: costs % Large::COSTS * Key::SCALE,
        }
    }

    // The whole lifts of the number.
    pub fn lifts(self) -> u64
        ensures { result ≡ self / lift }
    {
        self.high
    }

    // What is left of it beside them.
    pub fn left(self) -> Key
        ensures { result.0 ≡ self % lift }
    {
        Key(self.low)
    }
}

// An amount below one lift is added: at most one lift is carried.
impl AddAssign<Key> for Large {
    ghost can_add_assign = { λ n k. (n / lift + 16 < word) × (k.0 < lift) };

    ghost add_assign_gives = { λ n k r. r ≡ n + k.0 };

    fn add_assign(&mut self, more: Key) {
        *self = Large::whole(self.high, Key(self.low + more.0));
    }
}
