// A request as the three lists hold it.
ghost use Rattle.std.specs.Prelude.{◌≡◌};
ghost use Rattle.trace.specs.Fields.{is_file, is_request};
ghost use Rattle.trace.specs.Asked.{asked};

use amounts::{Bytes, Catalogue, Cost};

#[derive(Clone, Copy, Debug, PartialEq, Eq)]
pub struct Request {
    pub file: u16,
    pub size: u32,
    pub cost: u16,
}

// Whether a number is a file of the catalogue.
pub fn is_file(catalogue: Catalogue, file: u64) -> bool
    ensures { result ≡ is_file catalogue.0 file }
{
    file < catalogue.0
}

impl Request {
    // Whether its file is of the catalogue, and its size and cost are in range.
    pub fn in_range(self, catalogue: Catalogue) -> bool
        ensures { result ≡ is_request catalogue.0 (asked self) }
    {
        is_file(catalogue, self.file as u64)
            && Bytes::is_size(self.size as u64)
            && Cost::is_cost(self.cost as u64)
    }
}
