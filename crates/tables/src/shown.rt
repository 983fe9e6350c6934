// The lent tables to be looked at, as one value.
ghost use Rattle.std.specs.Prelude.{◌≡◌};
ghost use Rattle.tables.specs.Start.{long};
ghost use Rattle.tables.specs.Lent.{shown, lengths_of};

use crate::table_lengths::TableLengths;
use amounts::Settings;

// Per file number its place; per place the file kept there and its record; the queue of occupied places.
#[derive(Clone, Copy)]
pub struct Tables<'a> {
    pub place: &'a [u16],
    pub file: &'a [u16],
    pub size: &'a [u32],
    pub cost: &'a [u16],
    pub freq: &'a [u32],
    pub key: &'a [u64],
    pub stamp: &'a [u64],
    pub queue: &'a [u16],
}

impl Tables<'_> {
    // How many entries each has.
    pub fn lengths(self) -> TableLengths
        ensures { result ≡ lengths_of (shown self.entry) }
    {
        TableLengths {
            place: self.place.len(),
            file: self.file.len(),
            size: self.size.len(),
            cost: self.cost.len(),
            freq: self.freq.len(),
            key: self.key.len(),
            stamp: self.stamp.len(),
            queue: self.queue.len(),
        }
    }

    // Whether each table has its needed length.
    pub fn are_long(self, settings: Settings) -> bool
        ensures { result ≡ long settings (shown self.entry) }
    {
        self.lengths()
            .are_enough(settings.places.count(), settings.catalogue.count())
    }
}
