// Two steps of `shelving` that read one table, where a run lends all records as one value.
// After a loan of one table out of them a proof can't name what the records hold, so each loan stands in a function of its own.
ghost use Rattle.shelving.specs.Room.{Roomless, Roomed};
ghost use Rattle.shelving.specs.Telling.{Tellable, Told};

use amounts::{Bytes, Key};
use shelving::{Low, Room};
use tables::{Records, Tally};

// Writes the evictions, of the files that the records name.
pub(crate) fn tell(r: &Records, n: usize, left: usize, queue: &[u16], events: &mut [u32], at: usize)
    requires { Tellable n left r.now.file.now queue.now events.old at }
    ensures { Told n left r.now.file.now queue.now events.old at events.new }
{
    shelving::tell(n, left, r.file, queue, events, at);
}

// Sets the lowest aside, of the sizes that the records name.
pub(crate) fn make_room(
    r: &Records,
    a: Tally,
    z: Bytes,
    limit: Key,
    key: &[u64],
    stamp: &[u64],
    queue: &mut [u16],
    entry: &mut [u16],
) -> Result<Room, Low>
    requires { Roomless a z.0 r.now.size.now key.now stamp.now queue.old entry.old }
    ensures { Roomed a z.0 limit.0 r.now.size.now key.now stamp.now queue.old entry.old queue.new entry.new result }
{
    shelving::make_room(a, z, limit, r.size, key, stamp, queue, entry)
}
