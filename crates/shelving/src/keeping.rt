// A newcomer is kept: its record at a free place, and the place in the queue.
ghost use Rattle.std.specs.Prelude.{[]};
ghost use Rattle.tables.specs.Lent.{tables_of, Same};
ghost use Rattle.shelving.specs.Records.{Keepable, Keeps};

use crate::records::{Kept, put};
use tables::Records;

// File f is kept at the free place p, beside n files.
pub fn keep(
    r: &mut Records,
    key: &mut [u64],
    stamp: &mut [u64],
    queue: &mut [u16],
    entry: &mut [u16],
    n: usize,
    p: usize,
    f: usize,
    k: Kept,
)
    requires { Keepable n p f k (tables_of r.old key.old stamp.old []) queue.old entry.old }
    ensures same { Same r.old r.new }
    ensures kept { Keeps n p f k (tables_of r.old key.old stamp.old []) (tables_of r.new key.new stamp.new []) queue.old entry.old queue.new entry.new }
{
    put(r, key, stamp, p, f, k);
    queue::insert(queue, entry, key, stamp, n, p as u16);
}
