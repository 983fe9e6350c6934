// What a part is refused for before it is served: a bad number, and no room in the run or in the event list.
ghost use Rattle.std.specs.Prelude.{◌≡◌};
ghost use Rattle.refusing.specs.Judging.{Judgeable, roomed, fitting};

use amounts::Requests;
use card::Refusal;
use tables::Tally;
use trace::scan;

// Whether so many requests have room in the run and in the event list: 5, then 6.
fn has_room(a: Tally, count: usize, told: usize) -> Result<usize, Refusal>
    requires { Judgeable a }
    ensures { result ≡ roomed a count told }
{
    if !Requests(a.requests).leave_room(count as u64) {
        return Err(Refusal::TooMany);
    }
    if told < 2 * count + a.files_kept as usize {
        return Err(Refusal::Room);
    }
    Ok(count)
}

// How many requests the part has, where it is good and has room: 3 and 4 by place, then 5, then 6.
pub fn room_for(a: Tally, part: &[u8], told: usize) -> Result<usize, Refusal>
    requires { Judgeable a }
    ensures { result ≡ fitting a part.now told }
{
    let count = scan(part, a.settings.catalogue, 0)?;
    has_room(a, count, told)
}
