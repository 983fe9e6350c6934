// What a request asks for.
use amounts::{Bytes, Cost};

// A file, with the size and the cost that the request gives it.
#[derive(Clone, Copy)]
pub struct Asked {
    pub file: usize,
    pub size: Bytes,
    pub cost: Cost,
}
