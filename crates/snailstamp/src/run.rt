// A fresh start, and a run carried on.
// The words are slices that C lends, so each export tests their length first; each answer has words and a definition of its own, so each has its `put`.
ghost use Rattle.std.specs.Prelude.{◌≤◌, length};
ghost use Rattle.tables.specs.Tables.{tables};
ghost use Rattle.words.specs.Words.{tally_words, settings_from};
ghost use Rattle.snailstamp.specs.Steps.{PutStarted, PutEnded};
ghost use Rattle.snailstamp.specs.Run.{FreshWords, CarriedWords};

use amounts::Unit;
use card::Refusal;
use parts::Ended;
use replay::carry_on;
use tables::{Tally, fresh};
use words::{answer_word, put_words, refusal_word, settings_from, tally_from};

// The words of a tally.
pub(crate) const TALLY_WORDS: usize = 19;

// The answer of a fresh start; where it was not refused, its tally over the front of the words.
fn put_started(started: Result<Tally, Refusal>, out: &mut [u64]) -> u64
    requires { tally_words ≤ length out.old }
    ensures { PutStarted started out.old result out.new }
{
    match started {
        Err(refusal) => refusal_word(refusal),
        Ok(a) => {
            put_words(a, out);
            0
        }
    }
}

// The answer of a run carried on; where it was not refused, its tally over the front of the words.
fn put_carried(carried: Result<Ended, Refusal>, out: &mut [u64]) -> u64
    requires { tally_words ≤ length out.old }
    ensures { PutEnded carried out.old result out.new }
{
    match carried {
        Err(refusal) => refusal_word(refusal),
        Ok(ended) => {
            put_words(ended.tally, out);
            answer_word(Ok(ended.events))
        }
    }
}

// A fresh start over the lent tables, its tally over the front of the lent words.
pub fn snailstamp_fresh(
    unit: u64,
    policy: u64,
    capacity: u64,
    places: u64,
    catalogue: u64,
    tally: &mut [u64],
    place: &mut [u16],
    file: &mut [u16],
    size: &mut [u32],
    cost: &mut [u16],
    freq: &mut [u32],
    key: &mut [u64],
    stamp: &mut [u64],
    queue: &mut [u16],
) -> u64
    ensures { FreshWords (settings_from unit policy capacity places catalogue) tally.old (tables place.old file.old size.old cost.old freq.old key.old stamp.old queue.old) result tally.new (tables place.new file.new size.new cost.new freq.new key.new stamp.new queue.new) }
{
    let settings = settings_from(unit, policy, capacity, places, catalogue);
    if !settings.in_range() {
        return refusal_word(Refusal::Setting);
    }
    if tally.len() < TALLY_WORDS {
        return refusal_word(Refusal::Short);
    }
    let started = fresh(settings, place, file, size, cost, freq, key, stamp, queue);
    put_started(started, tally)
}

// A run carried on over the tally that the words stand for.
pub fn snailstamp_carry_on(
    unit: u64,
    tally: &mut [u64],
    place: &mut [u16],
    file: &mut [u16],
    size: &mut [u32],
    cost: &mut [u16],
    freq: &mut [u32],
    key: &mut [u64],
    stamp: &mut [u64],
    queue: &mut [u16],
    part: &[u8],
    events: &mut [u32],
) -> u64
    ensures { CarriedWords unit part.now tally.old (tables place.old file.old size.old cost.old freq.old key.old stamp.old queue.old) events.old result tally.new (tables place.new file.new size.new cost.new freq.new key.new stamp.new queue.new) events.new }
{
    if !Unit::is_unit(unit) {
        return refusal_word(Refusal::Setting);
    }
    if tally.len() < TALLY_WORDS {
        return refusal_word(Refusal::Short);
    }
    let a = tally_from(tally);
    let carried = carry_on(
        Unit(unit),
        a,
        place,
        file,
        size,
        cost,
        freq,
        key,
        stamp,
        queue,
        part,
        events,
    );
    put_carried(carried, tally)
}
