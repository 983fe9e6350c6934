// The bytes of a house number.
// The buffer is lent, so it goes with a place in it; `lines` has a width of its own for digits, with laws of its own.
ghost use Rattle.std.specs.Prelude.{◌≡◌, ◌≤◌, length};
ghost use Rattle.trace.specs.Number.{encode, number_most};
ghost use Rattle.trace.specs.Stores.{Roomy, Laid};

// How many bytes spell a number. What is left of the number ends the loop, not an index, so the loop is by hand.
pub(crate) fn width(n: u64) -> usize
    requires { n ≤ number_most }
    ensures { result ≡ length (encode n) }
{
    let mut rest = n;
    let mut groups: usize = 1;
    while 127 < rest {
        rest = rest / 128;
        groups += 1;
    }
    groups
}

// The bytes of a number, from a place on; the place after them. What is left of the number ends this loop too.
pub(crate) fn put_number(n: u64, out: &mut [u8], at: usize) -> usize
    requires n_le_number_most { n ≤ number_most }
    requires roomy { Roomy (encode n) at out.old }
    ensures { Laid (encode n) at out.old out.new result }
{
    let mut left = n;
    let mut i = at;
    while 127 < left {
        out[i] = (128 + left % 128) as u8;
        left = left / 128;
        i += 1;
    }
    out[i] = left as u8;
    i + 1
}
