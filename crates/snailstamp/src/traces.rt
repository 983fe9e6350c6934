// Trace files and further parts, read and written.
ghost use Rattle.std.specs.Prelude.{◌≤◌, length};
ghost use Rattle.words.specs.Words.{settings_words, settings_from};
ghost use Rattle.snailstamp.specs.Steps.{Unread, PutRead};
ghost use Rattle.snailstamp.specs.Traces.{ReadFileWords, ReadPartWords, WroteFileWords, WrotePartWords};

use amounts::{Catalogue, Settings};
use card::Refusal;
use trace::{read_file, read_part, scan, settings_at};
use words::{answer_word, put_settings, refusal_word, settings_from};
use writer::{write_file, write_part};

// The words of settings.
const SETTINGS_WORDS: usize = 5;

// Why a file is refused where its settings have no room: what is wrong with its bytes, else that.
fn refused_unread(trace: &[u8]) -> Refusal
    ensures { Unread trace.now result }
{
    match settings_at(trace) {
        Err(refusal) => refusal,
        Ok((settings, at)) => match scan(trace, settings.catalogue, at) {
            Err(refusal) => refusal,
            Ok(_) => Refusal::Room,
        },
    }
}

// The answer of a file read; where it was not refused, its settings over the front of the words.
fn put_read(read: Result<(Settings, usize), Refusal>, out: &mut [u64]) -> u64
    requires { settings_words ≤ length out.old }
    ensures { PutRead read out.old result out.new }
{
    match read {
        Err(refusal) => refusal_word(refusal),
        Ok((found, count)) => {
            put_settings(found, out);
            answer_word(Ok(count))
        }
    }
}

// The settings of a file over the front of lent words, its requests over the fronts of three lists.
pub fn snailstamp_read_file(
    trace: &[u8],
    settings: &mut [u64],
    files: &mut [u16],
    sizes: &mut [u32],
    costs: &mut [u16],
) -> u64
    ensures { ReadFileWords trace.now settings.old files.old sizes.old costs.old result settings.new files.new sizes.new costs.new }
{
    if settings.len() < SETTINGS_WORDS {
        return refusal_word(refused_unread(trace));
    }
    let read = read_file(trace, files, sizes, costs);
    put_read(read, settings)
}

// The requests of a further part over the fronts of three lists.
pub fn snailstamp_read_part(
    catalogue: u64,
    part: &[u8],
    files: &mut [u16],
    sizes: &mut [u32],
    costs: &mut [u16],
) -> u64
    ensures { ReadPartWords catalogue part.now files.old sizes.old costs.old result files.new sizes.new costs.new }
{
    let read = read_part(Catalogue(catalogue), part, files, sizes, costs);
    answer_word(read)
}

// The bytes of a file over the front of `out`.
pub fn snailstamp_write_file(
    unit: u64,
    policy: u64,
    capacity: u64,
    places: u64,
    catalogue: u64,
    files: &[u16],
    sizes: &[u32],
    costs: &[u16],
    out: &mut [u8],
) -> u64
    ensures { WroteFileWords (settings_from unit policy capacity places catalogue) files.now sizes.now costs.now out.old result out.new }
{
    let settings = settings_from(unit, policy, capacity, places, catalogue);
    let wrote = write_file(settings, files, sizes, costs, out);
    answer_word(wrote)
}

// The bytes of a further part over the front of `out`.
pub fn snailstamp_write_part(
    catalogue: u64,
    files: &[u16],
    sizes: &[u32],
    costs: &[u16],
    out: &mut [u8],
) -> u64
    ensures { WrotePartWords catalogue files.now sizes.now costs.now out.old result out.new }
{
    let wrote = write_part(Catalogue(catalogue), files, sizes, costs, out);
    answer_word(wrote)
}
