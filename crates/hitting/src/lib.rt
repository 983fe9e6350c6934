// A hit on a kept file.
#![tactic(auto)]

mod renewal;

pub use renewal::hit;
