// A key, as inflation and the product are too; and which of two files is lower.
ghost use Rattle.std.specs.Prelude.{◌≡◌, ◌+◌, ◌-◌, ◌<◌, ◌≤◌};
ghost use Rattle.amounts.specs.Limits.{frequency_most, word};
ghost use Rattle.amounts.specs.Worth.{product_of, Valued};
ghost use Rattle.amounts.specs.Order.{lower_of};

use crate::bytes::Bytes;
use crate::cost::Cost;
use std::ops::{Add, Sub};

#[derive(Clone, Copy, Debug, PartialEq, Eq, PartialOrd, Ord)]
pub struct Key(pub u64);

impl Key {
    pub const SCALE: u64 = 16777216;

    // Where frequency stops rising.
    pub const FREQUENCY_MOST: u64 = 1048575;

    // What a lift takes from inflation and from every key.
    pub const LIFT: u64 = 1152921504606846976;

    // Inflation stays below two lifts.
    pub const INFLATION_MOST: u64 = 2305843009213693951;
}

// The key of a file: inflation and what the file adds to it.
impl Add for Key {
    type Output = Key;

    ghost can_add = { λ a b. a.0 + b.0 < word };

    ghost add_gives = { λ a b r. r.0 ≡ a.0 + b.0 };

    fn add(self, more: Key) -> Key {
        Key(self.0 + more.0)
    }
}

// How far a key stands above another.
impl Sub for Key {
    type Output = Key;

    ghost can_sub = { λ a b. b.0 ≤ a.0 };

    ghost sub_gives = { λ a b r. r.0 ≡ a.0 - b.0 };

    fn sub(self, less: Key) -> Key {
        Key(self.0 - less.0)
    }
}

// Frequency × cost × scale / size, rounded down once.
pub fn product(frequency: u64, size: Bytes, cost: Cost) -> Key
    requires valued { Valued size.0 cost.0 }
    requires frequency_le_frequency_most { frequency ≤ frequency_most }
    ensures { result.0 ≡ product_of frequency size.0 cost.0 }
{
    Key(frequency * (cost.0 * Key::SCALE) / size.0)
}

// Whether file a is lower than file b: the smaller key; among equal keys, the smaller stamp.
// The order of a pair was tried, and a request then costs 4 to 6 in a hundred more; key and stamp come from two tables, so they go one by one.
#[tactic(auto, unfolding(crate::specs::Order::lower_of))]
pub fn lower(key_a: Key, stamp_a: u64, key_b: Key, stamp_b: u64) -> bool
    ensures { result ≡ lower_of key_a.0 stamp_a key_b.0 stamp_b }
{
    if key_a < key_b {
        return true;
    }
    if key_b < key_a {
        return false;
    }
    stamp_a < stamp_b
}
