// The judge of soundness: whether a tally and tables that a caller hands in are sound, whatever words they hold.
#![tactic(auto)]

mod entries;
mod places;
mod stamps;

ghost use Rattle.tables.specs.Lent.{shown};
ghost use Rattle.tables.specs.Sound.{Verdict};
ghost use Rattle.judge.specs.Judge.{Lent};

use crate::entries::{index_entries, rest_zero};
use crate::places::stack_unused;
use crate::stamps::stamps_own;
use queue::is_ordered;
use tables::{Tables, Tally};
use totals::totals_agree;
use weighing::shelf_agrees;

// Whether the tally and the tables are sound.
// Where they are, the lists of the call are made ready: which queue entry holds a place, and the stack of free places.
// Where they are not, what these lists hold is not promised: a call that is refused reads them no more.
pub fn is_sound(a: Tally, t: Tables, entry: &mut [u16], free: &mut [u16]) -> bool
    requires { Lent a (shown t) entry.old free.old }
    ensures { Verdict a (shown t.entry) entry.old entry.new free.old free.new result }
{
    if !totals_agree(a) {
        return false;
    }
    let n = a.files_kept as usize;
    if a.settings.places.count() < n {
        return false;
    }
    if !rest_zero(t, a.settings, n) {
        return false;
    }
    if !shelf_agrees(a, t) {
        return false;
    }
    if !index_entries(t, a.settings, n, entry) {
        return false;
    }
    if !stack_unused(t, a.settings, entry, free) {
        return false;
    }
    if !is_ordered(t.queue, t.key, t.stamp, n) {
        return false;
    }
    stamps_own(n, t.queue, t.stamp)
}
