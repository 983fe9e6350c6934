// One request: a hit, a pass, or an admission by either policy.
#![tactic(auto)]

mod records;
mod request;
mod step;

pub use request::serve;
pub use step::Step;
