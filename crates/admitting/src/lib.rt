// The admission of a newcomer by either policy, and what a request comes to before its own entry is told.
#![tactic(auto)]

mod admission;
mod records;
mod untold;

pub use admission::admit;
pub use untold::Untold;
