// The files set aside leave: their events are told in order, then their records and places go.
// C lends the event list, so it goes with the place of the next event, which is no count of the loop's turns.
ghost use Rattle.tables.specs.Lent.{tables_of, Same};
ghost use Rattle.shelving.specs.Evicting.{Droppable, Dropped};
ghost use Rattle.shelving.specs.Telling.{Tellable, Told};

use crate::records::clear;
use amounts::Settings;
use method::{Kind, event};
use tables::Records;

// Writes the evictions: the files behind the queue, from the last of n entries down. It only reads `file`, and asks for no
// more than that table lent shared: docs/PROMISES.md has it among the parts that crates share.
pub fn tell(n: usize, left: usize, file: &[u16], queue: &[u16], events: &mut [u32], at: usize)
    requires { Tellable n left file.now queue.now events.old at }
    ensures { Told n left file.now queue.now events.old at events.new }
{
    let mut e = at;
    for last in (left..n).rev() {
        let p = usize::from(queue[last]);
        events[e] = event(u32::from(Kind::Evict), usize::from(file[p]));
        e += 1;
    }
}

// Drops the files behind the queue, from the last of n entries down, and stacks their places.
pub fn drop_behind(
    r: &mut Records,
    key: &mut [u64],
    stamp: &mut [u64],
    queue: &mut [u16],
    free: &mut [u16],
    settings: Settings,
    n: usize,
    left: usize,
)
    requires { Droppable settings n left (tables_of r.old key.old stamp.old queue.old) free.old }
    ensures same { Same r.old r.new }
    ensures dropped { Dropped settings n left (tables_of r.old key.old stamp.old queue.old) free.old (tables_of r.new key.new stamp.new queue.new) free.new }
{
    for last in (left..n).rev() {
        let freed = queue[last];
        let p = usize::from(freed);
        let f = usize::from(r.file[p]);
        clear(r, key, stamp, p, f);
        queue[last] = 0;
        let height = settings.places.count() - (last + 1);
        free[height] = freed;
    }
}
