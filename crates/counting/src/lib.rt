// The tally of a run with one request more.
#![tactic(auto)]

mod request;

pub use request::counted;
