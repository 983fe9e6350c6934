// The newcomer of an admission: the key limit that room is made under, its record, and the tally with it.
#![tactic(auto)]

mod record;

pub use record::{admitted, limit, newcomer};
