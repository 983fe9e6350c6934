// A hit, where a run lends all records as one value: `hitting` reads two tables of them and writes a third.
ghost use Rattle.tables.specs.Lent.{Same, Refrequented};
ghost use Rattle.hitting.specs.Hitting.{Hittable, HitDone};

use tables::{Records, Tally};

// A hit on the file at place p.
pub(crate) fn hit(
    a: Tally,
    p: usize,
    r: &mut Records,
    key: &mut [u64],
    stamp: &mut [u64],
    queue: &mut [u16],
    entry: &mut [u16],
) -> Tally
    requires { Hittable a p r.old.size.now r.old.cost.now r.old.freq.now key.old stamp.old queue.old entry.old }
    ensures same { Same r.old r.new }
    ensures others { Refrequented r.old r.new }
    ensures hit { HitDone a p r.old.size.now r.old.cost.now r.old.freq.now key.old stamp.old queue.old entry.old r.new.freq.now key.new stamp.new queue.new entry.new result }
{
    // Each slice goes by a name of its own: the check has a rule for a call that takes several so.
    let size = &mut *r.size;
    let cost = &mut *r.cost;
    let freq = &mut *r.freq;
    hitting::hit(a, p, size, cost, freq, key, stamp, queue, entry)
}
