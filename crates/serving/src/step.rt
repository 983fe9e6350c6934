// What one request gives.
use method::Outcome;
use tables::Tally;

// The request's outcome, the tally after it, and how many events are written then.
#[derive(Clone, Copy)]
pub struct Step {
    pub outcome: Outcome,
    pub tally: Tally,
    pub events: usize,
}
