// What a request comes to.
use method::Outcome;
use tables::Tally;

// A request's outcome, the tally after it, and where its own entry is due: behind its evictions, which are told.
#[derive(Clone, Copy)]
pub struct Untold {
    pub outcome: Outcome,
    pub tally: Tally,
    pub due: usize,
}
