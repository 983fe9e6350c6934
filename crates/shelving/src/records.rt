// A file's record put into the tables, and taken out of them: the leaves that write the seven tables of records.
ghost use Rattle.std.specs.Prelude.{◌≡◌, []};
ghost use Rattle.tables.specs.Lent.{tables_of, Same};
ghost use Rattle.shelving.specs.Evicting.{clear_at};
ghost use Rattle.shelving.specs.Records.{Within, Holdable, kept_of, put_at};

use amounts::{Bytes, Cost, Key, Places};
use tables::Records;

// The file at place p is dropped: its record goes back to 0, and it has no place.
pub(crate) fn clear(r: &mut Records, key: &mut [u64], stamp: &mut [u64], p: usize, f: usize)
    requires { Within p f (tables_of r.old key.old stamp.old []) }
    ensures same { Same r.old r.new }
    ensures cleared { tables_of r.new key.new stamp.new [] ≡ clear_at p f (tables_of r.old key.old stamp.old []) }
{
    r.place[f] = Places::NONE;
    r.file[p] = 0;
    r.size[p] = 0;
    r.cost[p] = 0;
    r.freq[p] = 0;
    key[p] = 0;
    stamp[p] = 0;
}

// What a run keeps of a file.
#[derive(Clone, Copy)]
pub struct Kept {
    pub size: Bytes,
    pub cost: Cost,
    pub freq: u64,
    pub key: Key,
    pub stamp: u64,
}

// File f is kept at place p.
pub(crate) fn put(r: &mut Records, key: &mut [u64], stamp: &mut [u64], p: usize, f: usize, k: Kept)
    requires within { Within p f (tables_of r.old key.old stamp.old []) }
    requires holdable { Holdable p f k }
    ensures same { Same r.old r.new }
    ensures kept { tables_of r.new key.new stamp.new [] ≡ put_at p f (kept_of k) (tables_of r.old key.old stamp.old []) }
{
    r.place[f] = p as u16;
    r.file[p] = f as u16;
    r.size[p] = k.size.0 as u32;
    r.cost[p] = k.cost.0 as u16;
    r.freq[p] = k.freq as u32;
    key[p] = k.key.0;
    stamp[p] = k.stamp;
}
