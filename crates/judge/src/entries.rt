// The queue's entries: each holds an occupied place of its own, and those past the files kept are 0.
ghost use Rattle.std.specs.Prelude.{◌≤◌, length};
ghost use Rattle.tables.specs.Lent.{shown};
ghost use Rattle.tables.specs.Sound.{Occupied, Rest};
ghost use Rattle.tables.specs.Exact.{Exact};
ghost use Rattle.judge.specs.Passes.{Indexable, Unnoted, Noted};

use amounts::{Places, Settings};
use tables::Tables;

// Whether a place and its file point at each other.
pub(crate) fn occupied(t: Tables, settings: Settings, p: usize) -> bool
    requires catalogue_in_bounds { settings.catalogue.0 ≤ length t.place.now }
    requires places_in_bounds { settings.places.0 ≤ length t.file.now }
    ensures { Exact (Occupied settings (shown t.entry) p) result }
{
    if settings.places.count() <= p {
        return false;
    }
    let f = t.file[p] as usize;
    if settings.catalogue.count() <= f {
        return false;
    }
    t.place[f] as usize == p
}

// Notes for each place which of the first n entries holds it; no where an entry's place is not occupied or is noted already.
// On no the index is left as it is by then: it is a list of the call's own, which a refused call reads no more.
fn note_entries(t: Tables, settings: Settings, n: usize, entry: &mut [u16]) -> bool
    requires indexable { Indexable settings n (shown t) entry.old }
    requires unnoted { Unnoted settings entry.old }
    ensures { Noted settings n (shown t.entry) entry.old entry.new result }
{
    for (i, held) in t.queue[..n].iter().enumerate() {
        let p = *held as usize;
        if !occupied(t, settings, p) {
            return false;
        }
        if entry[p] != Places::NONE {
            return false;
        }
        entry[p] = i as u16;
    }
    true
}

// Makes the index of the queue of n entries; no where they do not hold each occupied place once.
pub(crate) fn index_entries(t: Tables, settings: Settings, n: usize, entry: &mut [u16]) -> bool
    requires { Indexable settings n (shown t) entry.old }
    ensures { Noted settings n (shown t.entry) entry.old entry.new result }
{
    entry[..settings.places.count()].fill(Places::NONE);
    note_entries(t, settings, n, entry)
}

// Whether the entries past the first n are 0.
pub(crate) fn rest_zero(t: Tables, settings: Settings, n: usize) -> bool
    requires { settings.places.0 ≤ length t.queue.now }
    ensures { Exact (Rest settings n (shown t.entry)) result }
{
    let places = settings.places.count();
    (n..places).all(|i| t.queue[i] == 0)
}
