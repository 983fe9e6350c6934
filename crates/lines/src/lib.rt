// The lines of the sheet, laid into a text (document 01, "The sheet").
// By hand and no `Display`: which bytes that writes the library says only for a `String`, and the project has no heap.
#![tactic(auto)]

mod decimal;
mod line;
mod page;

pub use line::{put_bytes, put_item};
pub use page::put_page;
