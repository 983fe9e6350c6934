// A part of a trace that was found good: nothing can fail while it is served.
#![tactic(auto)]

ghost use Rattle.tables.specs.Lent.{tables_of, Same};
ghost use Rattle.refusing.specs.Judging.{requests_in};
ghost use Rattle.parts.specs.Parts.{Ready, PartServed};

use amounts::{Bytes, Cost};
use serving::serve;
use shelving::Asked;
use tables::{Records, Tally};

// The tally after a part, and how many events it wrote.
#[derive(Clone, Copy)]
pub struct Ended {
    pub tally: Tally,
    pub events: usize,
}

// Serves the requests of a part, in order.
pub fn serve_part(
    a: Tally,
    part: &[u8],
    count: usize,
    r: &mut Records,
    key: &mut [u64],
    stamp: &mut [u64],
    queue: &mut [u16],
    entry: &mut [u16],
    free: &mut [u16],
    events: &mut [u32],
) -> Ended
    requires { Ready a part.now count (tables_of r.old key.old stamp.old queue.old) entry.old free.old events.old }
    ensures same { Same r.old r.new }
    ensures served { PartServed (requests_in a part.now) a (tables_of r.old key.old stamp.old queue.old) events.old result (tables_of r.new key.new stamp.new queue.new) entry.new free.new events.new }
{
    let mut b = a;
    let mut at: usize = 0;
    let mut told: usize = 0;
    for _ in 0..count {
        let taken = trace::request_at(part, at);
        let read = taken.request;
        let q = Asked {
            file: usize::from(read.file),
            size: Bytes::size(u64::from(read.size)),
            cost: Cost::asked(u64::from(read.cost)),
        };
        let step = serve(b, q, r, key, stamp, queue, entry, free, events, told);
        let tally = step.tally;
        b = tally;
        told = step.events;
        at = taken.next;
    }
    Ended {
        tally: b,
        events: told,
    }
}
