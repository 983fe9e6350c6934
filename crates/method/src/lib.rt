// How a request ended, and the event list that says so. The methods themselves are definitions and theorems, in specs/ and proofs/.
#![tactic(auto)]

mod events;
mod outcome;

pub use events::{Kind, UnknownKind, event};
pub use outcome::{Outcome, Pass};
