// The sheet of a trace: what the program prints (document 01, "The sheet").
#![tactic(auto)]

mod run;
mod whole;

pub use whole::{INPUT_MOST, SHEET_MOST, sheet};
