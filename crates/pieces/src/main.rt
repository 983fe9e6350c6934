// Runs the bench pieces that are not theorems (document 01, "Bench pieces") and a recut (document 02, ticket 2), and prints what each gives.
#![tactic(auto)]

mod limit;
mod sheets;

use std::io;

fn main(rt: HostRuntime) -> io::Result<()> {
    sheets::size_of_the_capacity(&rt)?;
    sheets::one_place(&rt)?;
    sheets::recut(&rt)?;
    limit::run_limit(&rt)
}
