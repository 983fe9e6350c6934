// The places: each occupied one stands in the index, and each other is 0 and goes on the stack of free places.
ghost use Rattle.std.specs.Prelude.{◌+◌};
ghost use Rattle.tables.specs.Lent.{shown};
ghost use Rattle.tables.specs.Sound.{Zero};
ghost use Rattle.tables.specs.Exact.{Exact};
ghost use Rattle.weighing.specs.Weighing.{Covered};
ghost use Rattle.judge.specs.Passes.{Stackable, Stacked};

use crate::entries::occupied;
use amounts::{Places, Settings};
use tables::Tables;

// Whether the record at a place is 0.
fn is_zero(t: Tables, p: usize) -> bool
    requires { Covered (p + 1) 0 (shown t) }
    ensures { Exact (Zero (shown t.entry) p) result }
{
    t.file[p] == 0
        && t.size[p] == 0
        && t.cost[p] == 0
        && t.freq[p] == 0
        && t.key[p] == 0
        && t.stamp[p] == 0
}

// Stacks the unused places; no where one is not 0 or an occupied place is not in the index.
// On no the stack is left as it is by then: it is a list of the call's own, which a refused call reads no more.
pub(crate) fn stack_unused(t: Tables, settings: Settings, entry: &[u16], free: &mut [u16]) -> bool
    requires { Stackable settings (shown t) entry.now free.old }
    ensures { Stacked settings (shown t.entry) entry.now free.old free.new result }
{
    let places = settings.places.count();
    let mut top = 0;
    for p in 0..places {
        if occupied(t, settings, p) {
            if entry[p] == Places::NONE {
                return false;
            }
        } else {
            if !is_zero(t, p) {
                return false;
            }
            free[top] = p as u16;
            top += 1;
        }
    }
    true
}
