// The shelf that the tables stand for: its files and its sums against the tally.
ghost use Rattle.std.specs.Prelude.{◌≤◌};
ghost use Rattle.amounts.specs.Limits.{requests_most};
ghost use Rattle.tables.specs.Tables.{shelf_of};
ghost use Rattle.tables.specs.Lent.{shown};
ghost use Rattle.tables.specs.Exact.{Exact};
ghost use Rattle.weighing.specs.Weighing.{Weighable, Balanced, Shelvable, Filed};

use crate::files::all_lawful;
use crate::sums::{add_products, sum_kept};
use large::Large;
use tables::{Tables, Tally};

// Whether the sums over the files that have a place are those of the tally and within their bounds.
// The limit of requests is asked: a tally holds any words, and `totals_agree` is what found it.
fn sums_agree(a: Tally, t: Tables) -> bool
    requires weighable { Weighable a.settings.catalogue.0 (shown t) }
    requires requests_le_requests_most { a.requests ≤ requests_most }
    ensures { Exact (Balanced a (shelf_of a.settings.catalogue.0 (shown t.entry))) result }
{
    let sums = sum_kept(t, a.settings.catalogue);
    if sums.files != a.files_kept {
        return false;
    }
    if sums.bytes != a.bytes_kept {
        return false;
    }
    if a.settings.capacity < a.bytes_kept {
        return false;
    }
    if a.requests < sums.freqs {
        return false;
    }
    let most = Large::worths(a.requests);
    if most.lifts() < a.lifts {
        return false;
    }
    let whole = Large::whole(a.lifts, a.inflation);
    add_products(t, a.settings.catalogue, whole) <= most
}

// Whether every file is as it should be, and so are the sums over them.
pub fn shelf_agrees(a: Tally, t: Tables) -> bool
    requires { Shelvable a (shown t) }
    ensures { Exact (Filed a (shown t.entry)) result }
{
    all_lawful(a, t) && sums_agree(a, t)
}
