// An answer as one word, and settings and tally as words.
// Functions and no `From`: the words are C's, a slice of them must be long enough, and no type here is this crate's own.
ghost use Rattle.std.specs.Prelude.{◌≡◌, ◌<◌, ◌≤◌, length};
ghost use Rattle.card.specs.Card.{card_of};
ghost use Rattle.trace.specs.Cards.{answer_card, numbers};
ghost use Rattle.trace.specs.Promise.{over};
ghost use Rattle.tables.specs.Start.{words};
ghost use Rattle.words.specs.Words.{word_of, answer_word, tally_words, settings_words, settings_from, tally_in};

use amounts::{Bytes, Catalogue, Cost, Key, Places, Policy, Settings, Unit};
use card::Refusal;
use tables::Tally;

// One more than the largest value that has room beside a number.
const VALUES: u64 = 72057594037927936;

// One more than the largest number on the card that has room.
const NUMBERS: u64 = 256;

// A value and a number in one word.
fn word(value: usize, number: u64) -> u64
    requires { number < 256 }
    ensures { result ≡ word_of value number }
{
    value as u64 % VALUES * NUMBERS + number
}

// The word of a refusal.
pub fn refusal_word(refusal: Refusal) -> u64
    ensures { result ≡ answer_word (card_of refusal) }
{
    word(refusal.value(), refusal.number())
}

// The word of what the reader, the writer or a run answers.
pub fn answer_word(answer: Result<usize, Refusal>) -> u64
    ensures { result ≡ answer_word (answer_card answer) }
{
    match answer {
        Ok(count) => word(count, 0),
        Err(refusal) => refusal_word(refusal),
    }
}

// The settings of five numbers.
pub fn settings_from(unit: u64, policy: u64, capacity: u64, places: u64, catalogue: u64) -> Settings
    ensures { result ≡ settings_from unit policy capacity places catalogue }
{
    Settings {
        unit: Unit(unit),
        policy: Policy(policy),
        capacity: Bytes(capacity),
        places: Places(places),
        catalogue: Catalogue(catalogue),
    }
}

// The five settings over the front of a slice.
pub fn put_settings(s: Settings, out: &mut [u64])
    requires { settings_words ≤ length out.old }
    ensures { out.new ≡ over (numbers s) out.old }
{
    out[0] = s.unit.0;
    out[1] = s.policy.0;
    out[2] = s.capacity.0;
    out[3] = s.places.0;
    out[4] = s.catalogue.0;
}

// The tally that words stand for.
pub fn tally_from(tally: &[u64]) -> Tally
    requires { tally_words ≤ length tally.now }
    ensures { result ≡ tally_in tally.now }
{
    let settings = settings_from(tally[0], tally[1], tally[2], tally[3], tally[4]);
    Tally {
        settings,
        inflation: Key(tally[5]),
        bytes_kept: Bytes(tally[6]),
        files_kept: tally[7],
        requests: tally[8],
        hits: tally[9],
        admitted: tally[10],
        passed: tally[11],
        evicted: tally[12],
        bytes_asked: Bytes(tally[13]),
        hit_bytes: Bytes(tally[14]),
        cost_asked: Cost(tally[15]),
        hit_cost: Cost(tally[16]),
        dropped: tally[17],
        lifts: tally[18],
    }
}

// The words of a tally over the front of a slice.
pub fn put_words(a: Tally, out: &mut [u64])
    requires { tally_words ≤ length out.old }
    ensures { out.new ≡ over (words a) out.old }
{
    out[0] = a.settings.unit.0;
    out[1] = a.settings.policy.0;
    out[2] = a.settings.capacity.0;
    out[3] = a.settings.places.0;
    out[4] = a.settings.catalogue.0;
    out[5] = a.inflation.0;
    out[6] = a.bytes_kept.0;
    out[7] = a.files_kept;
    out[8] = a.requests;
    out[9] = a.hits;
    out[10] = a.admitted;
    out[11] = a.passed;
    out[12] = a.evicted;
    out[13] = a.bytes_asked.0;
    out[14] = a.hit_bytes.0;
    out[15] = a.cost_asked.0;
    out[16] = a.hit_cost.0;
    out[17] = a.dropped;
    out[18] = a.lifts;
}
