// A fresh start over anybody's old tables.
ghost use Rattle.std.specs.Prelude.{◌≡◌};
ghost use Rattle.tables.specs.Tables.{tables, Long, cleared};
ghost use Rattle.tables.specs.Start.{Freshly};

use crate::shown::Tables;
use crate::tally::Tally;
use amounts::{Places, Settings};
use card::Refusal;

// Every needed entry is set: no file has a place, and all else is 0. The slices as `fresh` has them, each set alone.
fn clear_all(
    places: usize,
    catalogue: usize,
    place: &mut [u16],
    file: &mut [u16],
    size: &mut [u32],
    cost: &mut [u16],
    freq: &mut [u32],
    key: &mut [u64],
    stamp: &mut [u64],
    queue: &mut [u16],
)
    requires { Long places catalogue (tables place.old file.old size.old cost.old freq.old key.old stamp.old queue.old) }
    ensures { tables place.new file.new size.new cost.new freq.new key.new stamp.new queue.new ≡ cleared places catalogue (tables place.old file.old size.old cost.old freq.old key.old stamp.old queue.old) }
{
    place[..catalogue].fill(Places::NONE);
    file[..places].fill(0);
    size[..places].fill(0);
    cost[..places].fill(0);
    freq[..places].fill(0);
    key[..places].fill(0);
    stamp[..places].fill(0);
    queue[..places].fill(0);
}

// A fresh start: refused for a setting out of range or a table too short, and then nothing is written.
// The eight slices go one by one, since C lends them so and a run takes three of them at once.
pub fn fresh(
    settings: Settings,
    place: &mut [u16],
    file: &mut [u16],
    size: &mut [u32],
    cost: &mut [u16],
    freq: &mut [u32],
    key: &mut [u64],
    stamp: &mut [u64],
    queue: &mut [u16],
) -> Result<Tally, Refusal>
    ensures { Freshly settings (tables place.old file.old size.old cost.old freq.old key.old stamp.old queue.old) result (tables place.new file.new size.new cost.new freq.new key.new stamp.new queue.new) }
{
    if !settings.in_range() {
        return Err(Refusal::Setting);
    }
    let t = Tables {
        place,
        file,
        size,
        cost,
        freq,
        key,
        stamp,
        queue,
    };
    if !t.are_long(settings) {
        return Err(Refusal::Short);
    }
    let places = settings.places.count();
    let catalogue = settings.catalogue.count();
    clear_all(
        places, catalogue, place, file, size, cost, freq, key, stamp, queue,
    );
    Ok(Tally::new(settings))
}
