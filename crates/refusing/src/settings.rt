// What a call is refused for before its tables are looked at: the settings, the lengths and the unit.
ghost use Rattle.std.specs.Prelude.{◌≡◌};
ghost use Rattle.tables.specs.Tables.{long_enough};
ghost use Rattle.refusing.specs.Judging.{settled};

use amounts::Unit;
use card::Refusal;
use tables::{TableLengths, Tally};

// The settings, the lengths and the unit: 1, 2 or 8.
pub fn judge_settings(unit: Unit, a: Tally, lengths: TableLengths) -> Result<(), Refusal>
    ensures { result ≡ settled unit.0 a (long_enough a.settings.places.0 a.settings.catalogue.0 lengths.place lengths.file lengths.size lengths.cost lengths.freq lengths.key lengths.stamp lengths.queue) }
{
    if !unit.in_range() {
        return Err(Refusal::Setting);
    }
    if !a.settings.in_range() {
        return Err(Refusal::Setting);
    }
    let places = a.settings.places.count();
    let catalogue = a.settings.catalogue.count();
    if !lengths.are_enough(places, catalogue) {
        return Err(Refusal::Short);
    }
    if unit == a.settings.unit {
        return Ok(());
    }
    Err(Refusal::OtherUnit)
}
