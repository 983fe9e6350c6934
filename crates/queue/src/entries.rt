// One entry of the queue and two: comparing them, and storing one with the index kept in step.
ghost use Rattle.std.specs.Prelude.{◌≡◌, ◌<◌, length, get_or};
ghost use Rattle.queue.specs.Queue.{lower_at};
ghost use Rattle.queue.specs.Moves.{Legible, Slot, Placed};

use amounts::{Key, lower};

// Whether the file at place a is lower than that at place b.
pub(crate) fn lower_place(keys: &[u64], stamps: &[u64], a: usize, b: usize) -> bool
    requires a_in_bounds { (a < length keys.now) × (b < length keys.now) }
    requires a_in_bounds_2 { (a < length stamps.now) × (b < length stamps.now) }
    ensures { result ≡ lower_at keys.now stamps.now a b }
{
    let key_a = keys[a];
    let key_b = keys[b];
    let stamp_a = stamps[a];
    let stamp_b = stamps[b];
    lower(Key(key_a), stamp_a, Key(key_b), stamp_b)
}

// Whether the file of entry i is lower than that of entry j.
pub(crate) fn lower_entry(queue: &[u16], keys: &[u64], stamps: &[u64], i: usize, j: usize) -> bool
    requires legible { Legible queue.now keys.now stamps.now i }
    requires legible_2 { Legible queue.now keys.now stamps.now j }
    ensures { result ≡ lower_at keys.now stamps.now (get_or queue.now i 0) (get_or queue.now j 0) }
{
    let a = usize::from(queue[i]);
    let b = usize::from(queue[j]);
    lower_place(keys, stamps, a, b)
}

// Stores a place at entry i, and i in the index: every move of a place is made of this, so that the two stay in step.
pub(crate) fn put(queue: &mut [u16], entry: &mut [u16], i: usize, place: u16)
    requires { Slot queue.old entry.old i place }
    ensures { Placed queue.old queue.new entry.old entry.new i place }
{
    let p = usize::from(place);
    queue[i] = place;
    entry[p] = i as u16;
}
