// Words at the boundary: an answer as one word, settings and tally as words, ratios as doubles.
#![tactic(auto)]

mod doubles;
mod forms;

pub use doubles::put_ratios;
pub use forms::{answer_word, put_settings, put_words, refusal_word, settings_from, tally_from};
