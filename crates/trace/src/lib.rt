// Trace files and further parts of a trace: house numbers, what reading and writing mean, and the reader (document 01, "Trace bytes").
#![tactic(auto)]

mod number;
mod numbers;
mod opening;
mod reader;
mod request;

pub use numbers::FileNumbers;
pub use opening::{read_file, settings_at};
pub use reader::{Taken, read_part, request_at, scan};
pub use request::{Request, is_file};
