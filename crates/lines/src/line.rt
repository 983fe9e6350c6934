// A word with its number, and the line of an event. The text is a buffer that is lent, so it goes with a place in it.
ghost use Rattle.std.specs.Prelude.{◌≡◌};
ghost use Rattle.trace.specs.Stores.{Roomy, Laid};
ghost use Rattle.lines.specs.Lines.{item, kind_word, event_line};

use crate::decimal::put_decimal;
use amounts::Catalogue;
use method::Kind;

// The bytes of a slice, from a place on; the place after them.
pub fn put_bytes(bytes: &[u8], out: &mut [u8], at: usize) -> usize
    requires { Roomy bytes.now at out.old }
    ensures { Laid bytes.now at out.old out.new result }
{
    let end = at + bytes.len();
    out[at..end].copy_from_slice(bytes);
    end
}

// A word, its number, and the byte that ends them.
pub fn put_item(word: &[u8], n: u64, end: u8, out: &mut [u8], at: usize) -> usize
    requires { Roomy (item word.now n end) at out.old }
    ensures { Laid (item word.now n end) at out.old out.new result }
{
    let after_word = put_bytes(word, out, at);
    out[after_word] = b' ';
    let after_number = put_decimal(n, out, after_word + 1);
    out[after_number] = end;
    after_number + 1
}

// The word of a kind's number; one that no kind has is told as an eviction.
#[tactic(auto, unfolding(crate::specs::Lines::kind_word))]
fn kind_word(number: u32) -> &'static [u8]
    ensures { result.now ≡ kind_word number }
{
    match Kind::try_from(number) {
        Ok(Kind::Hit) => b"hit",
        Ok(Kind::Admit) => b"admit",
        Ok(Kind::Big) => b"big",
        Ok(Kind::Low) => b"low",
        Ok(Kind::Stale) => b"stale",
        Ok(Kind::Evict) | Err(_) => b"evict",
    }
}

// The line of an event: its kind and its file.
pub(crate) fn put_event(event: u32, out: &mut [u8], at: usize) -> usize
    requires { Roomy (event_line event) at out.old }
    ensures { Laid (event_line event) at out.old out.new result }
{
    let word = kind_word(event / Catalogue::MOST as u32);
    let file = event % Catalogue::MOST as u32;
    put_item(word, file as u64, b'\n', out, at)
}
