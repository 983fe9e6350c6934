// The tally with one request more, by its outcome.
ghost use Rattle.std.specs.Prelude.{◌≡◌};
ghost use Rattle.counting.specs.Counting.{counted_tally, Countable};

use amounts::{Bytes, Cost};
use method::Outcome;
use tables::Tally;

// What was asked is counted in any case; what was evicted for an admission is counted where it is evicted.
pub fn counted(a: Tally, outcome: Outcome, size: Bytes, cost: Cost) -> Tally
    requires { Countable a size.0 cost.0 }
    ensures { result ≡ counted_tally a outcome size.0 cost.0 }
{
    let mut b = a;
    b.requests += 1;
    b.bytes_asked += size;
    b.cost_asked += cost;
    match outcome {
        Outcome::Hit => {
            b.hits += 1;
            b.hit_bytes += size;
            b.hit_cost += cost;
        }
        Outcome::Admitted => b.admitted += 1,
        Outcome::Passed(_) => b.passed += 1,
    }
    b
}
