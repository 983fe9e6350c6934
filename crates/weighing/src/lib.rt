// What the records say: whether each file's record and the sums over the files are within document 01's bounds.
#![tactic(auto)]

mod files;
mod shelf;
mod sums;

pub use shelf::shelf_agrees;
