// What an admission does to the tables: files kept and dropped, room made for a newcomer, and the evictions told.
#![tactic(auto)]

mod asked;
mod evict;
mod keeping;
mod records;
mod room;

pub use asked::Asked;
pub use evict::{drop_behind, tell};
pub use keeping::keep;
pub use records::Kept;
pub use room::{Low, Room, make_room, put_back};
