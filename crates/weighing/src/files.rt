// The files: each has no place, or one that points back at it and holds a record in range.
// `Covered` is asked and is no type, since it is asked of any tables that are lent.
ghost use Rattle.std.specs.Prelude.{◌<◌};
ghost use Rattle.method.specs.Method.{policy_of};
ghost use Rattle.method.specs.Promise.{Once};
ghost use Rattle.tables.specs.Lent.{shown};
ghost use Rattle.tables.specs.Exact.{Exact};
ghost use Rattle.weighing.specs.Weighing.{Covered, Right, Lawful, AllLawful};

use crate::sums::kept_product;
use amounts::{Bytes, Key, Places, Policy};
use tables::{Tables, Tally};

// Whether a frequency is exactly 1 where the policy counts none.
fn is_once(policy: Policy, freq: u32) -> bool
    ensures { Exact (Once (policy_of policy.0) freq) result }
{
    if policy.without_frequency() {
        return freq == 1;
    }
    true
}

// Whether a record is in range at an inflation after so many requests. It goes field by field, as it is read from six tables for this one test.
fn is_right(
    policy: Policy,
    inflation: Key,
    requests: u64,
    size: u32,
    cost: u16,
    freq: u32,
    key: Key,
    stamp: u64,
) -> bool
    ensures { Exact (Right (policy_of policy.0) inflation.0 requests (record { size = size; cost = cost; freq = freq; key = key.0; stamp = stamp })) result }
{
    if !Bytes::is_size(size as u64) {
        return false;
    }
    if cost < 1 {
        return false;
    }
    if freq < 1 {
        return false;
    }
    if Key::FREQUENCY_MOST < freq as u64 {
        return false;
    }
    if !is_once(policy, freq) {
        return false;
    }
    if requests <= stamp {
        return false;
    }
    if key < inflation {
        return false;
    }
    let most = kept_product(size, cost, freq as u64);
    key - inflation <= most
}

// Whether file f has no place, or one that points back at it and holds a record in range.
fn is_lawful(a: Tally, t: Tables, f: usize) -> bool
    requires f_lt_catalogue { f < a.settings.catalogue.0 }
    requires covered { Covered a.settings.places.0 a.settings.catalogue.0 (shown t) }
    ensures { Exact (Lawful a.settings a.inflation.0 a.requests (shown t.entry) f) result }
{
    let p = t.place[f] as usize;
    if p == Places::NONE as usize {
        return true;
    }
    if a.settings.places.count() <= p {
        return false;
    }
    if t.file[p] as usize != f {
        return false;
    }
    is_right(
        a.settings.policy,
        a.inflation,
        a.requests,
        t.size[p],
        t.cost[p],
        t.freq[p],
        Key(t.key[p]),
        t.stamp[p],
    )
}

// Whether every file of the catalogue is as it should be.
pub(crate) fn all_lawful(a: Tally, t: Tables) -> bool
    requires { Covered a.settings.places.0 a.settings.catalogue.0 (shown t) }
    ensures { Exact (AllLawful a.settings a.inflation.0 a.requests (shown t.entry)) result }
{
    let catalogue = a.settings.catalogue.count();
    (0..catalogue).all(|f| is_lawful(a, t, f))
}
