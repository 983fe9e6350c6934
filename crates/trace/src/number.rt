// House numbers: groups of seven bits, lowest group first, top bit set on every group but the last.
// A place goes beside the whole part: a slice of what is left would lose the offset that a refusal names.
ghost use Rattle.std.specs.Prelude.{ℕ, Bool, ◌≡◌, ◌≤◌, length, drop};
ghost use Rattle.card.specs.declared.Refusal.{Refusal};
ghost use Rattle.trace.specs.Fields.{field};
ghost use Rattle.trace.specs.Steps.{Numbered, NumberAt, NumberRead, Tells, FieldRead};

use card::Refusal;

// A number of the part, and the place after it.
#[derive(Clone, Copy, Debug, PartialEq, Eq)]
pub struct Number {
    pub value: u64,
    pub next: usize,
}

// The number at a place: at most six groups, and no last group of 0 behind others. It goes into its callers, and its end
// is asked for group by group: so the compiler lays six groups out, and a byte costs no loop.
#[inline(always)]
pub(crate) fn read_number(part: &[u8], at: usize) -> Result<Number, Refusal>
    requires { at ≤ length part.now }
    ensures { NumberRead part.now at result }
{
    let mut value: u64 = 0;
    let mut scale: u64 = 1;
    for group in 0..6 {
        let i = at + group;
        if part.len() <= i {
            return Err(Refusal::Form(at));
        }
        let b = part[i];
        value += (b % 128) as u64 * scale;
        if b < 128 {
            if b == 0 && 0 < group {
                return Err(Refusal::Form(at));
            }
            return Ok(Number { value, next: i + 1 });
        }
        scale *= 128;
    }
    Err(Refusal::Form(at))
}

// The number at a place whose value is in range; `out` where it is not.
#[inline(always)]
pub(crate) fn read_field<F: Fn(u64) -> bool>(
    part: &[u8],
    at: usize,
    in_range: F,
    out: Refusal,
) -> Result<Number, Refusal>
    requires at_in_bounds { at ≤ length part.now }
    requires callable { F.IsAlwaysCallable in_range }
    ensures { (inside : ℕ → Bool) (refusal : ℕ → Refusal) → Tells (F.post in_range) inside → refusal at ≡ out → FieldRead (field (length part.now) inside refusal (drop at part.now)) part.now at result }
{
    let number = read_number(part, at)?;
    if in_range(number.value) {
        Ok(number)
    } else {
        Err(out)
    }
}

// The number at a place where there is one: what the checking pass has judged is not judged again. Its last byte ends
// the loop, and no index is compared with an end, so the loop is by hand.
pub(crate) fn number_at(part: &[u8], at: usize) -> Number
    requires { Numbered part.now at }
    ensures { NumberAt part.now at result }
{
    let mut i = at;
    let mut value: u64 = 0;
    let mut scale: u64 = 1;
    loop {
        let b = part[i];
        value += (b % 128) as u64 * scale;
        i += 1;
        if b < 128 {
            return Number { value, next: i };
        }
        scale *= 128;
    }
}
