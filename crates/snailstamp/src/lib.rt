// The boundary: numbers and lent slices in, one word out, and no rule of its own. `snailstamp_c` exports it.
// Settings come as five numbers, tables and lists one by one, and answers go out as one word, because C passes them so.
#![tactic(auto)]

mod logs;
mod rates;
mod run;
mod sheets;
mod traces;

pub use logs::{snailstamp_squid_file, snailstamp_squid_part};
pub use rates::snailstamp_ratios;
pub use run::{snailstamp_carry_on, snailstamp_fresh};
pub use sheets::snailstamp_sheet;
pub use traces::{
    snailstamp_read_file, snailstamp_read_part, snailstamp_write_file, snailstamp_write_part,
};
