// A run carried on over a further part of its trace.
#![tactic(auto)]

mod carry;

pub use carry::carry_on;
