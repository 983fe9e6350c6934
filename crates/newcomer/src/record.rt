// A newcomer's record, where room was made, and the tally with it.
ghost use Rattle.std.specs.Prelude.{◌≡◌};
ghost use Rattle.method.specs.Method as method;
ghost use Rattle.newcomer.specs.Newcomer.{base_of, limit_of, Worthy, new_record, Admits, admitted_tally};
ghost use Rattle.shelving.specs.Records.{kept_of};

use amounts::{Key, Policy, product};
use counting::counted;
use method::Outcome;
use shelving::{Asked, Kept, Room};
use tables::Tally;

// The L that a newcomer's key is set with. The policies differ here, in `limit` and in a hit's frequency: one test each, shorter than a rule handed in.
fn base(policy: Policy, before: Key, after: Key) -> Key
    ensures { result.0 ≡ base_of (method.policy_of policy.0) before.0 after.0 }
{
    if policy.without_frequency() {
        return after;
    }
    before
}

// The key above which nothing is set aside.
pub fn limit(policy: Policy, key: Key) -> Key
    ensures { result.0 ≡ limit_of (method.policy_of policy.0) key.0 }
{
    if policy.without_frequency() {
        return Key(u64::MAX);
    }
    key
}

// The newcomer's record, with frequency 1 and the newest stamp.
pub fn newcomer(a: Tally, q: Asked, room: Room) -> Kept
    requires { Worthy a q.size.0 q.cost.0 room }
    ensures { kept_of result ≡ new_record a q.size.0 q.cost.0 room }
{
    let l = base(a.settings.policy, a.inflation, room.inflation);
    Kept {
        size: q.size,
        cost: q.cost,
        freq: 1,
        key: l + product(1, q.size, q.cost),
        stamp: a.requests,
    }
}

// The tally after the admission: what was set aside counts as evicted.
pub fn admitted(a: Tally, q: Asked, room: Room) -> Tally
    requires { Admits a q.size.0 q.cost.0 room }
    ensures { result ≡ admitted_tally a q.size.0 q.cost.0 room }
{
    let left = room.left as u64;
    let mut b = counted(a, Outcome::Admitted, q.size, q.cost);
    b.inflation = room.inflation;
    b.bytes_kept = room.bytes + q.size;
    b.files_kept = left + 1;
    b.evicted = a.evicted + (a.files_kept - left);
    b
}
