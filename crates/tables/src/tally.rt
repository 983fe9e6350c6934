// The tally of a run, by value.
ghost use Rattle.std.specs.Prelude.{◌≡◌};
ghost use Rattle.tables.specs.Tally.{fresh_tally};

use amounts::{Bytes, Cost, Key, Settings};

#[derive(Clone, Copy)]
pub struct Tally {
    pub settings: Settings,
    pub inflation: Key,
    pub bytes_kept: Bytes,
    pub files_kept: u64,
    pub requests: u64,
    pub hits: u64,
    pub admitted: u64,
    pub passed: u64,
    pub evicted: u64,
    pub bytes_asked: Bytes,
    pub hit_bytes: Bytes,
    pub cost_asked: Cost,
    pub hit_cost: Cost,
    pub dropped: u64,
    pub lifts: u64,
}

impl Tally {
    // The tally of a run that has served no request.
    pub fn new(settings: Settings) -> Tally
        ensures { result ≡ fresh_tally settings }
    {
        Tally {
            settings,
            inflation: Key(0),
            bytes_kept: Bytes(0),
            files_kept: 0,
            requests: 0,
            hits: 0,
            admitted: 0,
            passed: 0,
            evicted: 0,
            bytes_asked: Bytes(0),
            hit_bytes: Bytes(0),
            cost_asked: Cost(0),
            hit_cost: Cost(0),
            dropped: 0,
            lifts: 0,
        }
    }
}
