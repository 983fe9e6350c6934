// Squid's native access log, read into a trace (document 02, ticket 1).
#![tactic(auto)]

mod entry;
mod field;
mod log;
mod number;
mod word;

pub use entry::{Entry, Line};
pub use field::{Span, Ten};
pub use log::{squid_file, squid_part};
