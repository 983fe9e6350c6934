// The writer: requests of three lists as the bytes of a further part or of a file (document 01, "Trace bytes").
#![tactic(auto)]

mod lists;
mod number;
mod rows;

pub use lists::{put_request, put_settings, request_width, settings_width, write_file, write_part};
