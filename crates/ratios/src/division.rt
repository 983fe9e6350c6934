// One division of two counts, each of which is a double exactly.
ghost use Rattle.ratios.specs.Quotient.{Part, Divided};

// Part by whole, rounded once.
pub(crate) fn ratio(part: u64, whole: u64) -> f64
    requires { Part part whole }
    ensures { Divided part whole result }
{
    part as f64 / whole as f64
}
