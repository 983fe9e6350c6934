// The admission of a newcomer, by either policy.
// C lends the event list, so it goes with the place of the next event.
ghost use Rattle.tables.specs.Lent.{tables_of, Same};
ghost use Rattle.shelving.specs.Asked.{request_of};
ghost use Rattle.admitting.specs.Deciding.{Met};
ghost use Rattle.admitting.specs.Admitting.{Enterable, enters, Admissible, admits};

use crate::records::{make_room, tell};
use crate::untold::Untold;
use amounts::product;
use counting::counted;
use method::{Outcome, Pass};
use newcomer::{admitted, limit, newcomer};
use shelving::{Asked, Room, drop_behind, keep, put_back};
use tables::{Records, Tally};

// The newcomer enters where room was made: what was set aside is evicted in order, and it takes a free place.
fn enter(
    a: Tally,
    q: Asked,
    room: Room,
    r: &mut Records,
    key: &mut [u64],
    stamp: &mut [u64],
    queue: &mut [u16],
    entry: &mut [u16],
    free: &mut [u16],
    events: &mut [u32],
    at: usize,
) -> Untold
    requires { Enterable a (request_of q) room (tables_of r.old key.old stamp.old queue.old) entry.old free.old events.old at }
    ensures same { Same r.old r.new }
    ensures met { Met a (tables_of r.old key.old stamp.old queue.old) events.old at (enters a (request_of q) room (tables_of r.old key.old stamp.old queue.old)) result (tables_of r.new key.new stamp.new queue.new) entry.new free.new events.new }
{
    let n = a.files_kept as usize;
    let left = room.left;
    let due = at + (n - left);
    tell(r, n, left, queue, events, at);
    drop_behind(r, key, stamp, queue, free, a.settings, n, left);
    let top = a.settings.places.count() - left - 1;
    let p = usize::from(free[top]);
    let k = newcomer(a, q, room);
    keep(r, key, stamp, queue, entry, left, p, q.file, k);
    Untold {
        outcome: Outcome::Admitted,
        tally: admitted(a, q, room),
        due,
    }
}

// The admission of a newcomer that is not too big: low where it would be taken itself, and then nothing is evicted.
pub fn admit(
    a: Tally,
    q: Asked,
    r: &mut Records,
    key: &mut [u64],
    stamp: &mut [u64],
    queue: &mut [u16],
    entry: &mut [u16],
    free: &mut [u16],
    events: &mut [u32],
    at: usize,
) -> Untold
    requires { Admissible a (request_of q) (tables_of r.old key.old stamp.old queue.old) entry.old free.old events.old at }
    ensures same { Same r.old r.new }
    ensures met { Met a (tables_of r.old key.old stamp.old queue.old) events.old at (admits a (request_of q) (tables_of r.old key.old stamp.old queue.old)) result (tables_of r.new key.new stamp.new queue.new) entry.new free.new events.new }
{
    let k = a.inflation + product(1, q.size, q.cost);
    let most = limit(a.settings.policy, k);
    match make_room(r, a, q.size, most, key, stamp, queue, entry) {
        Ok(room) => enter(a, q, room, r, key, stamp, queue, entry, free, events, at),
        Err(low) => {
            let n = a.files_kept as usize;
            let left = low.left;
            put_back(n, left, key, stamp, queue, entry);
            let outcome = Outcome::Passed(Pass::LowKey);
            Untold {
                outcome,
                tally: counted(a, outcome, q.size, q.cost),
                due: at,
            }
        }
    }
}
