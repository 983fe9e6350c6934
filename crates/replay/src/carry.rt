// A run carried on: everything is judged once, before anything is written; then the part is served.
ghost use Rattle.tables.specs.Tables.{tables};
ghost use Rattle.replay.specs.Carrying.{carried, Judges, Carries};
ghost use Rattle.refusing.specs.Judging.{Orderly};

use amounts::{Places, Unit};
use card::Refusal;
use judge::is_sound;
use parts::{Ended, serve_part};
use refusing::{judge_settings, room_for};
use tables::{Records, Tables, Tally};

// Carries on over tables whose settings and lengths are in order: the eight slices as `carry_on` has them.
// The call's own lists are arrays of a fixed length: the project has no heap.
fn carry_sound(
    a: Tally,
    place: &mut [u16],
    file: &mut [u16],
    size: &mut [u32],
    cost: &mut [u16],
    freq: &mut [u32],
    key: &mut [u64],
    stamp: &mut [u64],
    queue: &mut [u16],
    part: &[u8],
    events: &mut [u32],
) -> Result<Ended, Refusal>
    requires { Orderly a (tables place.old file.old size.old cost.old freq.old key.old stamp.old queue.old) }
    ensures { Judges a (tables place.old file.old size.old cost.old freq.old key.old stamp.old queue.old) events.old (carried a result) (tables place.new file.new size.new cost.new freq.new key.new stamp.new queue.new) events.new part.now }
{
    let mut entry = [0u16; Places::MOST as usize];
    let mut free = [0u16; Places::MOST as usize];
    let t = Tables {
        place,
        file,
        size,
        cost,
        freq,
        key,
        stamp,
        queue,
    };
    if !is_sound(a, t, &mut entry, &mut free) {
        return Err(Refusal::Unsound);
    }
    let count = room_for(a, part, events.len())?;
    let mut r = Records {
        place,
        file,
        size,
        cost,
        freq,
    };
    Ok(serve_part(
        a, part, count, &mut r, key, stamp, queue, &mut entry, &mut free, events,
    ))
}

// Carries a run on over a further part of its trace, only under the unit that its tally names. C lends the eight slices one by one.
pub fn carry_on(
    unit: Unit,
    a: Tally,
    place: &mut [u16],
    file: &mut [u16],
    size: &mut [u32],
    cost: &mut [u16],
    freq: &mut [u32],
    key: &mut [u64],
    stamp: &mut [u64],
    queue: &mut [u16],
    part: &[u8],
    events: &mut [u32],
) -> Result<Ended, Refusal>
    ensures { Carries a (tables place.old file.old size.old cost.old freq.old key.old stamp.old queue.old) events.old (carried a result) (tables place.new file.new size.new cost.new freq.new key.new stamp.new queue.new) events.new unit.0 part.now }
{
    let t = Tables {
        place,
        file,
        size,
        cost,
        freq,
        key,
        stamp,
        queue,
    };
    judge_settings(unit, a, t.lengths())?;
    carry_sound(
        a, place, file, size, cost, freq, key, stamp, queue, part, events,
    )
}
