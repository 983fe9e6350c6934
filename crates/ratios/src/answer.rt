// Both ratios of a tally, or why there are none.
ghost use Rattle.std.specs.Prelude.{◌≡◌};
ghost use Rattle.ratios.specs.Ratios.{ratios_of, Rateable, ratio_card, Rates};

use crate::division::ratio;
use amounts::Bytes;
use card::Refusal;
use tables::Tally;
use totals::counts_agree;

// 2 to the 53rd, up to which a double has every count exactly.
const EXACT: Bytes = Bytes(9007199254740992);

#[derive(Clone, Copy, Debug)]
pub struct Ratios {
    pub hits: f64,
    pub bytes: f64,
}

// Hits by requests and hit bytes by bytes asked, of a tally that has both.
fn both(a: Tally) -> Ratios
    requires { Rateable a }
    ensures { result ≡ ratios_of a }
{
    let hits = ratio(a.hits, a.requests);
    let bytes = ratio(a.hit_bytes.0, a.bytes_asked.0);
    Ratios { hits, bytes }
}

// Both ratios of any tally: refused where it has no requests, then where its requests or bytes can't be those of a run, then where its bytes are no double.
pub fn ratios_of(a: Tally) -> Result<Ratios, Refusal>
    ensures { Rates a (ratio_card result) }
{
    if a.requests == 0 {
        return Err(Refusal::NoRequests);
    }
    if !counts_agree(a) {
        return Err(Refusal::Unsound);
    }
    if EXACT < a.bytes_asked {
        return Err(Refusal::Inexact);
    }
    let ratios = both(a);
    Ok(ratios)
}
