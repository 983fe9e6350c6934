// How a request ended.

// Why a file that was asked for is not kept: larger than the store, or among the lowest itself.
#[derive(Clone, Copy, Debug, PartialEq, Eq)]
pub enum Pass {
    TooBig,
    LowKey,
}

#[derive(Clone, Copy, Debug, PartialEq, Eq)]
pub enum Outcome {
    Hit,
    Admitted,
    Passed(Pass),
}
