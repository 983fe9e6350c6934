// A copy of another size than the one asked for is stale: it goes before the request goes on.
// C lends the event list, so it goes with the place of the next event.
ghost use Rattle.tables.specs.Lent.{tables_of, Same};
ghost use Rattle.dropping.specs.Cleaning.{Cleanable, old_in, Cleans};

use crate::copy::drop_copy;
use amounts::Places;
use method::{Kind, event};
use shelving::Asked;
use tables::{Records, Tally};

// The tally once no stale copy of the file is kept, and where the next event is due.
#[derive(Clone, Copy)]
pub struct Cleaned {
    pub tally: Tally,
    pub due: usize,
}

// Drops the copy that is not of the size asked for, if one is kept, and tells so at `at`.
pub fn drop_stale(
    a: Tally,
    q: Asked,
    r: &mut Records,
    key: &mut [u64],
    stamp: &mut [u64],
    queue: &mut [u16],
    entry: &mut [u16],
    free: &mut [u16],
    events: &mut [u32],
    at: usize,
) -> Cleaned
    requires { Cleanable a q.file (tables_of r.old key.old stamp.old queue.old) entry.old free.old events.old at }
    ensures same { Same r.old r.new }
    ensures cleaned { Cleans a q.file (old_in a q.file q.size.0 (tables_of r.old key.old stamp.old queue.old)) (tables_of r.old key.old stamp.old queue.old) events.old at result (tables_of r.new key.new stamp.new queue.new) entry.new free.new events.new }
{
    let home = r.place[q.file];
    if home == Places::NONE {
        return Cleaned { tally: a, due: at };
    }
    let p = usize::from(home);
    if u64::from(r.size[p]) == q.size.0 {
        return Cleaned { tally: a, due: at };
    }
    events[at] = event(u32::from(Kind::Stale), q.file);
    let due = at + 1;
    let tally = drop_copy(a, p, r, key, stamp, queue, entry, free);
    Cleaned { tally, due }
}
