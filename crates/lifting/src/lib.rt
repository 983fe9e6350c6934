// A lift: before a request, where L has reached 2 to the 60th, that amount is taken from L and from every key.
#![tactic(auto)]

ghost use Rattle.lifting.specs.Lifting.{Liftable, Lifted, Raisable, Raised};

use amounts::Key;
use tables::Tally;

// Takes one lift from the key of each of the first n entries of the queue, which stays as it is.
fn lift_keys(n: usize, queue: &[u16], keys: &mut [u64])
    requires { Liftable queue.now keys.old n }
    ensures { Lifted queue.now keys.old keys.new n }
{
    for place in &queue[..n] {
        let p = *place as usize;
        keys[p] -= Key::LIFT;
    }
}

// The tally that a request is served from: with one lift more, where L has reached it.
pub fn lift(a: Tally, queue: &[u16], keys: &mut [u64]) -> Tally
    requires { Raisable a queue.now keys.old }
    ensures { Raised a queue.now keys.old keys.new result }
{
    let one = Key(Key::LIFT);
    if a.inflation < one {
        return a;
    }
    lift_keys(a.files_kept as usize, queue, keys);
    let mut b = a;
    b.inflation = a.inflation - one;
    b.lifts += 1;
    b
}
