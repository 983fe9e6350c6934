// The lent tables and the tally of a run: what they stand for, and a fresh start.
#![tactic(auto)]

mod records;
mod shown;
mod start;
mod table_lengths;
mod tally;

pub use records::Records;
pub use shown::Tables;
pub use start::fresh;
pub use table_lengths::TableLengths;
pub use tally::Tally;
