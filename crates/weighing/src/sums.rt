// Sums over the files that have a place: those of the shelf that the tables stand for.
// `Weighable` is asked here and in shelf.rt, and is no type: `all_lawful` finds it of tables that hold any words.
ghost use Rattle.std.specs.Prelude.{◌≡◌, ◌+◌, ◌/◌, ◌≤◌};
ghost use Rattle.amounts.specs.Limits.{requests_most, frequency_most, lift};
ghost use Rattle.amounts.specs.Worth.{Valued, product_of};
ghost use Rattle.method.specs.Shelf.{sum};
ghost use Rattle.method.specs.Shelf as shelf;
ghost use Rattle.tables.specs.Tables.{shelf_of};
ghost use Rattle.tables.specs.Lent.{shown};
ghost use Rattle.weighing.specs.Weighing.{Weighable, Summed};

use amounts::{Bytes, Catalogue, Cost, Key, Places, product};
use large::Large;
use tables::Tables;

// How many files are kept, their sizes and their frequencies together.
#[derive(Clone, Copy)]
pub(crate) struct Sums {
    pub files: u64,
    pub bytes: Bytes,
    pub freqs: u64,
}

// The sums of the files that have a place.
pub(crate) fn sum_kept(t: Tables, catalogue: Catalogue) -> Sums
    requires { Weighable catalogue.0 (shown t) }
    ensures { Summed (shelf_of catalogue.0 (shown t.entry)) result }
{
    let n = catalogue.count();
    let mut files = 0;
    let mut bytes = Bytes(0);
    let mut freqs = 0;
    for home in &t.place[..n] {
        if *home != Places::NONE {
            let p = *home as usize;
            files += 1;
            bytes += Bytes(t.size[p] as u64);
            freqs += t.freq[p] as u64;
        }
    }
    Sums {
        files: files,
        bytes: bytes,
        freqs: freqs,
    }
}

// The product of a record, from the words of its tables.
pub(crate) fn kept_product(size: u32, cost: u16, freq: u64) -> Key
    requires valued { Valued size cost }
    requires freq_le_frequency_most { freq ≤ frequency_most }
    ensures { result.0 ≡ product_of freq size cost }
{
    product(freq, Bytes::size(size as u64), Cost::asked(cost as u64))
}

// The products of the files together, added to a number: each is below one lift.
pub(crate) fn add_products(t: Tables, catalogue: Catalogue, start: Large) -> Large
    requires lifts_le_requests_most { start / lift ≤ requests_most }
    requires weighable { Weighable catalogue.0 (shown t) }
    ensures { result ≡ start + sum shelf.product (shelf_of catalogue.0 (shown t.entry)) }
{
    let n = catalogue.count();
    let mut sum = start;
    for home in &t.place[..n] {
        if *home != Places::NONE {
            let p = *home as usize;
            sum += kept_product(t.size[p], t.cost[p], t.freq[p] as u64);
        }
    }
    sum
}
