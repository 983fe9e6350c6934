// A kept file is dropped: from the queue, its record, its place, and its place goes on the stack of free ones.
ghost use Rattle.std.specs.Prelude.{◌≡◌};
ghost use Rattle.tables.specs.Lent.{tables_of, Same};
ghost use Rattle.dropping.specs.Dropping.{Among, dropped_tally, Standing, CopyGone};

use amounts::Bytes;
use shelving::drop_behind;
use tables::{Records, Tally};

// The tally without a copy of so many bytes: nothing is evicted, and L stays.
fn without(a: Tally, z: Bytes) -> Tally
    requires { Among a z.0 }
    ensures { result ≡ dropped_tally a z.0 }
{
    let mut b = a;
    b.bytes_kept -= z;
    b.files_kept -= 1;
    b.dropped += 1;
    b
}

// Drops the copy at place p: the queue sets it aside behind its last entry, and it goes from there.
pub(crate) fn drop_copy(
    a: Tally,
    p: usize,
    r: &mut Records,
    key: &mut [u64],
    stamp: &mut [u64],
    queue: &mut [u16],
    entry: &mut [u16],
    free: &mut [u16],
) -> Tally
    requires { Standing a p (tables_of r.old key.old stamp.old queue.old) entry.old free.old }
    ensures same { Same r.old r.new }
    ensures gone { CopyGone a p (tables_of r.old key.old stamp.old queue.old) result (tables_of r.new key.new stamp.new queue.new) entry.new free.new }
{
    let n = a.files_kept as usize;
    let last = n - 1;
    let z = Bytes(u64::from(r.size[p]));
    let at = usize::from(entry[p]);
    queue::remove(queue, entry, key, stamp, n, at, p as u16);
    drop_behind(r, key, stamp, queue, free, a.settings, n, last);
    without(a, z)
}
