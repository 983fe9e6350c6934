// Squid logs, read into trace bytes.
ghost use Rattle.words.specs.Words.{settings_from};
ghost use Rattle.snailstamp.specs.Logs.{SquidFileWords, SquidPartWords};

use amounts::Catalogue;
use squid::{squid_file, squid_part};
use words::{answer_word, settings_from};

// The bytes of a file over the front of `out`: the settings, then the requests of a log.
pub fn snailstamp_squid_file(
    unit: u64,
    policy: u64,
    capacity: u64,
    places: u64,
    catalogue: u64,
    log: &[u8],
    out: &mut [u8],
) -> u64
    ensures { SquidFileWords (settings_from unit policy capacity places catalogue) log.now out.old result out.new }
{
    let settings = settings_from(unit, policy, capacity, places, catalogue);
    let wrote = squid_file(settings, log, out);
    answer_word(wrote)
}

// The bytes of a further part over the front of `out`: the requests of a log.
pub fn snailstamp_squid_part(catalogue: u64, log: &[u8], out: &mut [u8]) -> u64
    ensures { SquidPartWords catalogue log.now out.old result out.new }
{
    let wrote = squid_part(Catalogue(catalogue), log, out);
    answer_word(wrote)
}
