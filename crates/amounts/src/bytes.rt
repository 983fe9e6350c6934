// A byte count: the size of a file, the capacity of a store, and sums of sizes.
ghost use Rattle.std.specs.Prelude.{◌≡◌, true, ◌+◌, ◌-◌, ◌<◌, ◌≤◌};
ghost use Rattle.amounts.specs.Limits.{is_size, is_capacity, size_most, requests_most, word, total_of};

use crate::range::{one_to, total_of};
use std::ops::{Add, AddAssign, Sub, SubAssign};

#[derive(Clone, Copy, Debug, PartialEq, Eq, PartialOrd, Ord)]
pub struct Bytes(pub u64);

impl Bytes {
    pub const SIZE_MOST: u64 = 16777215;

    pub const CAPACITY_MOST: u64 = 1099511627775;

    // Whether a number may be the size of a file.
    pub fn is_size(n: u64) -> bool
        ensures { result ≡ is_size n }
    {
        one_to(Bytes::SIZE_MOST, n)
    }

    // Whether a number may be the capacity of a store.
    pub fn is_capacity(n: u64) -> bool
        ensures { result ≡ is_capacity n }
    {
        one_to(Bytes::CAPACITY_MOST, n)
    }

    // The size of a file, of a number that was found in range.
    pub fn size(n: u64) -> Bytes
        requires { is_size n ≡ true }
        ensures { result.0 ≡ n }
    {
        Bytes(n)
    }

    // Whether so many files can have so many bytes.
    pub fn is_total_of(self, files: u64) -> bool
        requires { files ≤ requests_most }
        ensures { result ≡ total_of size_most files self.0 }
    {
        total_of(Bytes::SIZE_MOST, files, self.0)
    }
}

// Two byte counts together.
impl Add for Bytes {
    type Output = Bytes;

    ghost can_add = { λ a b. a.0 + b.0 < word };

    ghost add_gives = { λ a b r. r.0 ≡ a.0 + b.0 };

    fn add(self, more: Bytes) -> Bytes {
        Bytes(self.0 + more.0)
    }
}

impl AddAssign for Bytes {
    ghost can_add_assign = { λ a b. a.0 + b.0 < word };

    ghost add_assign_gives = { λ a b r. r.0 ≡ a.0 + b.0 };

    fn add_assign(&mut self, more: Bytes) {
        *self = *self + more;
    }
}

// What is left of a byte count.
impl Sub for Bytes {
    type Output = Bytes;

    ghost can_sub = { λ a b. b.0 ≤ a.0 };

    ghost sub_gives = { λ a b r. r.0 ≡ a.0 - b.0 };

    fn sub(self, less: Bytes) -> Bytes {
        Bytes(self.0 - less.0)
    }
}

impl SubAssign for Bytes {
    ghost can_sub_assign = { λ a b. b.0 ≤ a.0 };

    ghost sub_assign_gives = { λ a b r. r.0 ≡ a.0 - b.0 };

    fn sub_assign(&mut self, less: Bytes) {
        *self = *self - less;
    }
}
