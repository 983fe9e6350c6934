// One request: the lift that may be due and a stale copy go first, then it is decided by the file number alone and told in the event list.
// The index, the free places and the event list go beside the records: the queue takes the index with its own slices, and C lends the events.
ghost use Rattle.tables.specs.Lent.{tables_of, Same};
ghost use Rattle.shelving.specs.Asked.{request_of};
ghost use Rattle.admitting.specs.Deciding.{Meetable, meets, Met};
ghost use Rattle.serving.specs.Serving.{Servable, Stepped};

use crate::records::hit;
use crate::step::Step;
use admitting::{Untold, admit};
use amounts::Places;
use counting::counted;
use dropping::drop_stale;
use lifting::lift;
use method::{Outcome, Pass, event};
use shelving::Asked;
use tables::{Records, Tally};

// A hit, a pass or an admission, asked with the cost in force: of the events only the evictions are written.
fn meet(
    a: Tally,
    q: Asked,
    r: &mut Records,
    key: &mut [u64],
    stamp: &mut [u64],
    queue: &mut [u16],
    entry: &mut [u16],
    free: &mut [u16],
    events: &mut [u32],
    at: usize,
) -> Untold
    requires { Meetable a (request_of q) (tables_of r.old key.old stamp.old queue.old) entry.old free.old events.old at }
    ensures same { Same r.old r.new }
    ensures met { Met a (tables_of r.old key.old stamp.old queue.old) events.old at (meets a (request_of q) (tables_of r.old key.old stamp.old queue.old)) result (tables_of r.new key.new stamp.new queue.new) entry.new free.new events.new }
{
    let home = r.place[q.file];
    if home != Places::NONE {
        return Untold {
            outcome: Outcome::Hit,
            tally: hit(a, usize::from(home), r, key, stamp, queue, entry),
            due: at,
        };
    }
    let too_big = a.settings.capacity < q.size;
    if too_big {
        let outcome = Outcome::Passed(Pass::TooBig);
        return Untold {
            outcome,
            tally: counted(a, outcome, q.size, q.cost),
            due: at,
        };
    }
    admit(a, q, r, key, stamp, queue, entry, free, events, at)
}

// Serves a request after the lift that may be due, and writes its events from `at` on: a stale copy, the evictions, and its own entry, which is that of its outcome.
pub fn serve(
    a: Tally,
    q: Asked,
    r: &mut Records,
    key: &mut [u64],
    stamp: &mut [u64],
    queue: &mut [u16],
    entry: &mut [u16],
    free: &mut [u16],
    events: &mut [u32],
    at: usize,
) -> Step
    requires { Servable a (request_of q) (tables_of r.old key.old stamp.old queue.old) entry.old free.old events.old at }
    ensures same { Same r.old r.new }
    ensures stepped { Stepped a (request_of q) (tables_of r.old key.old stamp.old queue.old) events.old at result (tables_of r.new key.new stamp.new queue.new) entry.new free.new events.new }
{
    let lifted = lift(a, queue, key);
    let cleaned = drop_stale(lifted, q, r, key, stamp, queue, entry, free, events, at);
    let priced = Asked {
        file: q.file,
        size: q.size,
        cost: q.cost.in_force(q.size),
    };
    let met = meet(
        cleaned.tally,
        priced,
        r,
        key,
        stamp,
        queue,
        entry,
        free,
        events,
        cleaned.due,
    );
    let outcome = met.outcome;
    let tally = met.tally;
    let due = met.due;
    events[due] = event(u32::from(outcome.kind()), q.file);
    let next = due + 1;
    Step {
        outcome,
        tally,
        events: next,
    }
}
