// Reading a file: its five settings, then its requests.
ghost use Rattle.std.specs.Prelude.{◌≡◌};
ghost use Rattle.trace.specs.Cards.{opening_card, opening_answer};
ghost use Rattle.trace.specs.Promise.{ReadFile};

use crate::number::read_field;
use crate::numbers::FileNumbers;
use crate::reader::read_from;
use amounts::{Bytes, Catalogue, Places, Policy, Settings, Unit};
use card::Refusal;

// The settings at the front of a file, judged field by field, and the place after them.
pub fn settings_at(trace: &[u8]) -> Result<(Settings, usize), Refusal>
    ensures { opening_card result ≡ opening_answer trace.now }
{
    let unit = read_field(trace, 0, Unit::is_unit, Refusal::Setting)?;
    let policy = read_field(trace, unit.next, Policy::is_policy, Refusal::Setting)?;
    let capacity = read_field(trace, policy.next, Bytes::is_capacity, Refusal::Setting)?;
    let places = read_field(trace, capacity.next, Places::is_places, Refusal::Setting)?;
    let catalogue = read_field(
        trace,
        places.next,
        Catalogue::is_catalogue,
        Refusal::Setting,
    )?;
    let settings = Settings {
        unit: Unit(unit.value),
        policy: Policy(policy.value),
        capacity: Bytes(capacity.value),
        places: Places(places.value),
        catalogue: Catalogue(catalogue.value),
    };
    Ok((settings, catalogue.next))
}

// The settings of a file, and its requests into the fronts of three lists, which go one by one since C lends them so.
pub fn read_file(
    trace: &[u8],
    files: &mut [u16],
    sizes: &mut [u32],
    costs: &mut [u16],
) -> Result<(Settings, usize), Refusal>
    ensures { ReadFile trace.now files.old sizes.old costs.old result files.new sizes.new costs.new }
{
    let (settings, at) = settings_at(trace)?;
    let numbers = FileNumbers {
        catalogue: settings.catalogue,
    };
    let count = read_from(trace, numbers, at, files, sizes, costs)?;
    Ok((settings, count))
}
