// Hit ratio and byte hit ratio of a tally, for the fitters: one record of two doubles (document 02, tickets 3 and 5).
#![tactic(auto)]

mod answer;
mod division;

pub use answer::{Ratios, ratios_of};
