// The totals of a tally, whatever words it holds: numbers alone, bounded before they are added or multiplied.
#![tactic(auto)]

ghost use Rattle.std.specs.Prelude.{◌≤◌};
ghost use Rattle.amounts.specs.Limits.{requests_most, size_most, cost_most};
ghost use Rattle.method.specs.Totals.{Amount};
ghost use Rattle.tables.specs.Exact.{Exact};
ghost use Rattle.tables.specs.Sound.{Counted};
ghost use Rattle.totals.specs.Totals.{Numbers};

use amounts::{Key, Requests};
use tables::Tally;

// Whether bytes asked and hit bytes lie within their bounds. The limit of requests is asked, for a tally holds any words until it is tested.
// Costs have a function of their own: one for both would need a trait with the limit, the number and its order, which is longer.
fn bytes_agree(a: Tally) -> bool
    requires hits_le_requests_most { a.hits ≤ requests_most }
    requires requests_le_requests_most { a.requests ≤ requests_most }
    ensures { Exact (Amount size_most a.hits a.requests a.hit_bytes.0 a.bytes_asked.0) result }
{
    if !a.hit_bytes.is_total_of(a.hits) {
        return false;
    }
    if a.bytes_asked < a.hit_bytes {
        return false;
    }
    a.bytes_asked.is_total_of(a.requests)
}

// Whether cost asked and hit cost lie within theirs.
fn cost_agrees(a: Tally) -> bool
    requires hits_le_requests_most { a.hits ≤ requests_most }
    requires requests_le_requests_most { a.requests ≤ requests_most }
    ensures { Exact (Amount cost_most a.hits a.requests a.hit_cost.0 a.cost_asked.0) result }
{
    if !a.hit_cost.is_total_of(a.hits) {
        return false;
    }
    if a.cost_asked < a.hit_cost {
        return false;
    }
    a.cost_asked.is_total_of(a.requests)
}

// Whether the outcomes make up the requests, not too many for a run, and their bytes can be so many.
pub fn counts_agree(a: Tally) -> bool
    ensures { Exact (Counted a) result }
{
    if !Requests(a.requests).in_range() {
        return false;
    }
    if a.requests < a.hits {
        return false;
    }
    if a.requests < a.admitted {
        return false;
    }
    if a.requests < a.passed {
        return false;
    }
    if a.hits + a.admitted + a.passed != a.requests {
        return false;
    }
    bytes_agree(a)
}

// Whether the totals agree with each other, and inflation is below two lifts.
pub fn totals_agree(a: Tally) -> bool
    ensures { Exact (Numbers a) result }
{
    if !counts_agree(a) {
        return false;
    }
    if Key(Key::INFLATION_MOST) < a.inflation {
        return false;
    }
    if a.admitted < a.evicted {
        return false;
    }
    let others = a.admitted - a.evicted;
    if others < a.dropped {
        return false;
    }
    if a.files_kept != others - a.dropped {
        return false;
    }
    cost_agrees(a)
}
