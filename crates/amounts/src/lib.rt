// The quantities of document 01, "Numbers": each a type of its own, with its limits, its range test, and all that is added, taken away or compared.
#![tactic(auto)]

mod bytes;
mod cost;
mod key;
mod range;
mod settings;

pub use bytes::Bytes;
pub use cost::Cost;
pub use key::{Key, lower, product};
pub use settings::{Catalogue, Places, Policy, Requests, Settings, Unit};
