// What a run carried on is refused for, but for unsound tables: 1, 2 and 8 before they are looked at, 3 to 6 after.
#![tactic(auto)]

mod part;
mod settings;

pub use part::room_for;
pub use settings::judge_settings;
