// A run from a fresh start, over tables of the call's own.
// They are arrays of a fixed length: the project has no heap.
ghost use Rattle.tables.specs.Tally.{fresh_tally};
ghost use Rattle.replay.specs.Carrying.{carried};
ghost use Rattle.layout.specs.Steps.{OwnSized, Ran};

use amounts::Settings;
use card::Refusal;
use parts::Ended;
use replay::carry_on;
use tables::fresh;

// The program's own tables.
pub(crate) const OWN_PLACES: usize = 512;

pub(crate) const OWN_CATALOGUE: usize = 4096;

// The run over the requests of a part: the answer with the tally, and the events in a list. The fresh start is not refused: settings and lengths are in order.
pub(crate) fn run_into(
    settings: Settings,
    part: &[u8],
    events: &mut [u32],
) -> Result<Ended, Refusal>
    requires { OwnSized settings part.now events.old }
    ensures { Ran settings part.now events.old (carried (fresh_tally settings) result) events.new }
{
    let mut place = [0u16; OWN_CATALOGUE];
    let mut file = [0u16; OWN_PLACES];
    let mut size = [0u32; OWN_PLACES];
    let mut cost = [0u16; OWN_PLACES];
    let mut freq = [0u32; OWN_PLACES];
    let mut key = [0u64; OWN_PLACES];
    let mut stamp = [0u64; OWN_PLACES];
    let mut queue = [0u16; OWN_PLACES];
    let begun = fresh(
        settings, &mut place, &mut file, &mut size, &mut cost, &mut freq, &mut key, &mut stamp,
        &mut queue,
    )?;
    carry_on(
        settings.unit,
        begun,
        &mut place,
        &mut file,
        &mut size,
        &mut cost,
        &mut freq,
        &mut key,
        &mut stamp,
        &mut queue,
        part,
        events,
    )
}
