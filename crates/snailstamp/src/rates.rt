// Hit ratio and byte hit ratio of a tally.
ghost use Rattle.ratios.specs.Ratios.{ratio_card};
ghost use Rattle.snailstamp.specs.Rates.{PutRated, RatioWords};

use crate::run::TALLY_WORDS;
use card::Refusal;
use ratios::{Ratios, ratios_of};
use words::{put_ratios, refusal_word, tally_from};

// The doubles of both ratios.
const RATIO_DOUBLES: usize = 2;

// The answer as a word; where it is not refused and has room, both ratios over the front of the list.
fn put_rated(rated: Result<Ratios, Refusal>, out: &mut [f64]) -> u64
    ensures { PutRated (ratio_card rated) out.old result out.new }
{
    match rated {
        Err(refusal) => refusal_word(refusal),
        Ok(both) => {
            if out.len() < RATIO_DOUBLES {
                return refusal_word(Refusal::Room);
            }
            put_ratios(both, out);
            0
        }
    }
}

// Both ratios of the tally that the words stand for, over the front of a list.
pub fn snailstamp_ratios(tally: &[u64], ratios: &mut [f64]) -> u64
    ensures { RatioWords tally.now ratios.old result ratios.new }
{
    if tally.len() < TALLY_WORDS {
        return refusal_word(Refusal::Short);
    }
    let a = tally_from(tally);
    let rated = ratios_of(a);
    put_rated(rated, ratios)
}
