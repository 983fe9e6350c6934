// Numbers in decimal, with no leading zeros.
ghost use Rattle.std.specs.Prelude.{◌≡◌, length};
ghost use Rattle.trace.specs.Stores.{Roomy, Laid};
ghost use Rattle.lines.specs.Decimal.{decimal};

// How many digits a number has; `writer` has its own for groups of seven bits, since each has a definition and laws of its own. The loop stays a `while`: a turn divides what is left, and no range counts the turns.
pub(crate) fn width(n: u64) -> usize
    ensures { result ≡ length (decimal n) }
{
    let mut left = n;
    let mut count: usize = 1;
    while 9 < left {
        left /= 10;
        count += 1;
    }
    count
}

// The digits of a number, from a place on, the last one first; the place after them. A `while` here too, which ends with the same division.
pub(crate) fn put_decimal(n: u64, out: &mut [u8], at: usize) -> usize
    requires { Roomy (decimal n) at out.old }
    ensures { Laid (decimal n) at out.old out.new result }
{
    let end = at + width(n);
    let mut left = n;
    let mut i = end - 1;
    while 9 < left {
        out[i] = (48 + left % 10) as u8;
        left /= 10;
        i -= 1;
    }
    out[i] = (48 + left) as u8;
    end
}
