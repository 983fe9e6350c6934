// The file numbers of a trace.
ghost use Rattle.std.specs.Prelude.{◌≡◌, true};
ghost use Rattle.amounts.specs.Limits.{is_catalogue};

use amounts::Catalogue;
use card::Refusal;

// A catalogue that was found in range: file numbers run from 0 to below it.
#[derive(Clone, Copy)]
pub struct FileNumbers {
    pub catalogue: Catalogue,
    pub ghost in_range: { is_catalogue catalogue.0 ≡ true },
}

impl FileNumbers {
    ghost use Rattle.trace.specs.Steps.{Numbering};

    // The file numbers of a catalogue, where it is in range.
    pub fn of(catalogue: Catalogue) -> Result<FileNumbers, Refusal>
        ensures { Numbering catalogue.0 result }
    {
        if !catalogue.in_range() {
            return Err(Refusal::Setting);
        }
        Ok(FileNumbers { catalogue })
    }
}
