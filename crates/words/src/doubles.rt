// Both ratios as doubles, over a list that C lends.
ghost use Rattle.std.specs.Prelude.{◌≡◌, ◌≤◌, length};
ghost use Rattle.trace.specs.Promise.{over};
ghost use Rattle.ratios.specs.Ratios.{doubles_of};
ghost use Rattle.words.specs.Words.{ratio_doubles};

use ratios::Ratios;

// The two ratios over the front of a list.
pub fn put_ratios(x: Ratios, out: &mut [f64])
    requires { ratio_doubles ≤ length out.old }
    ensures { out.new ≡ over (doubles_of x) out.old }
{
    out[0] = x.hits;
    out[1] = x.bytes;
}
