// The needed lengths of the tables.
ghost use Rattle.std.specs.Prelude.{◌≡◌};
ghost use Rattle.tables.specs.Tables.{long_enough};

// How many entries each table has, whatever they hold.
#[derive(Clone, Copy, Debug, PartialEq, Eq)]
pub struct TableLengths {
    pub place: usize,
    pub file: usize,
    pub size: usize,
    pub cost: usize,
    pub freq: usize,
    pub key: usize,
    pub stamp: usize,
    pub queue: usize,
}

impl TableLengths {
    // Whether each table has its needed length: the catalogue for the table by file number, the places for every other.
    #[tactic(auto, unfolding(crate::specs::Tables::long_enough))]
    pub fn are_enough(self, places: usize, catalogue: usize) -> bool
        ensures { result ≡ long_enough places catalogue self.place self.file self.size self.cost self.freq self.key self.stamp self.queue }
    {
        catalogue <= self.place
            && places <= self.file
            && places <= self.size
            && places <= self.cost
            && places <= self.freq
            && places <= self.key
            && places <= self.stamp
            && places <= self.queue
    }
}
