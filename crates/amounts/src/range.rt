// The range tests.
ghost use Rattle.std.specs.Prelude.{◌≡◌, ◌≤◌};
ghost use Rattle.amounts.specs.Limits.{one_to, total_of, requests_most, size_most};

// Whether n is at least 1 and at most the limit.
// Each quantity calls it under a name of its own: a limit as a const parameter would make one type of `Unit` and `Requests`.
#[tactic(auto, unfolding(crate::specs::Limits::one_to))]
pub(crate) fn one_to(most: u64, n: u64) -> bool
    ensures { result ≡ one_to most n }
{
    if n < 1 {
        return false;
    }
    n <= most
}

// Whether so many files, each at least 1 and at most the limit, can come to a total.
// Bytes and costs call it with their own limits: a trait for the two would say no more than these calls.
// The files are asked to be few enough that the product fits; a tally holds any words until it is tested, so no type says it.
#[tactic(auto, unfolding(crate::specs::Limits::total_of))]
pub(crate) fn total_of(most: u64, files: u64, total: u64) -> bool
    requires most_le_size_most { most ≤ size_most }
    requires files_le_requests_most { files ≤ requests_most }
    ensures { result ≡ total_of most files total }
{
    if total < files {
        return false;
    }
    total <= files * most
}
