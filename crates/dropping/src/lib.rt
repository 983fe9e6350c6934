// An old copy goes: the leaf that drops a kept file, and the test that finds a copy of another size.
#![tactic(auto)]

mod copy;
mod stale;

pub use stale::{Cleaned, drop_stale};
