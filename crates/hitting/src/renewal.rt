// A hit: the kept file's key is set anew, and its queue entry moves to where it then belongs.
ghost use Rattle.std.specs.Prelude.{◌≡◌};
ghost use Rattle.method.specs.Method as method;
ghost use Rattle.hitting.specs.Hitting.{Hittable, HitDone};

use amounts::{Bytes, Cost, Key, Policy, product};
use counting::counted;
use method::Outcome;
use tables::Tally;

// The frequency after a hit: policy 1 does not count, and at its limit it stops rising.
fn again(policy: Policy, frequency: u64) -> u64
    ensures { result ≡ method.again (method.policy_of policy.0) frequency }
{
    if policy.without_frequency() {
        return 1;
    }
    if frequency < Key::FREQUENCY_MOST {
        return frequency + 1;
    }
    frequency
}

// A hit on the file at place p. Sizes and costs are only read, so they are asked for lent shared.
pub fn hit(
    a: Tally,
    p: usize,
    size: &[u32],
    cost: &[u16],
    freq: &mut [u32],
    key: &mut [u64],
    stamp: &mut [u64],
    queue: &mut [u16],
    entry: &mut [u16],
) -> Tally
    requires { Hittable a p size.now cost.now freq.old key.old stamp.old queue.old entry.old }
    ensures { HitDone a p size.now cost.now freq.old key.old stamp.old queue.old entry.old freq.new key.new stamp.new queue.new entry.new result }
{
    let z = Bytes::size(u64::from(size[p]));
    let w = Cost::asked(u64::from(cost[p]));
    let f = again(a.settings.policy, u64::from(freq[p]));
    let k = a.inflation + product(f, z, w);
    let at = usize::from(entry[p]);
    freq[p] = f as u32;
    queue::rekey(
        queue,
        entry,
        key,
        stamp,
        a.files_kept as usize,
        at,
        k.0,
        a.requests,
    );
    counted(a, Outcome::Hit, z, w)
}
