// The event list: one number each, kind and file (document 01, "Event list"; document 02, ticket 2).
ghost use Rattle.std.specs.Prelude.{◌≡◌, ◌≤◌, ◌<◌};
ghost use Rattle.amounts.specs.Limits.{catalogue_most};
ghost use Rattle.method.specs.Events as events;

use crate::outcome::{Outcome, Pass};
use amounts::Catalogue;

// What an entry tells of its file.
#[derive(Clone, Copy, Debug, PartialEq, Eq)]
pub enum Kind {
    Hit,
    Admit,
    Big,
    Low,
    Evict,
    Stale,
}

// The number that the list holds for a kind.
impl From<Kind> for u32 {
    ghost from_gives = { λ kind result. result ≡ events.number_of kind };

    fn from(kind: Kind) -> u32 {
        match kind {
            Kind::Hit => 1,
            Kind::Admit => 2,
            Kind::Big => 3,
            Kind::Low => 4,
            Kind::Evict => 5,
            Kind::Stale => 6,
        }
    }
}

// A number that stands for no kind.
#[derive(Clone, Copy, Debug, PartialEq, Eq)]
pub struct UnknownKind(pub u32);

impl TryFrom<u32> for Kind {
    type Error = UnknownKind;

    ghost try_from_gives = { events.Names };

    fn try_from(number: u32) -> Result<Self, UnknownKind> {
        match number {
            1 => Ok(Kind::Hit),
            2 => Ok(Kind::Admit),
            3 => Ok(Kind::Big),
            4 => Ok(Kind::Low),
            5 => Ok(Kind::Evict),
            6 => Ok(Kind::Stale),
            _ => Err(UnknownKind(number)),
        }
    }
}

impl Outcome {
    // The kind of a request's own entry.
    pub fn kind(self) -> Kind
        ensures { events.number_of result ≡ events.kind self }
    {
        match self {
            Outcome::Hit => Kind::Hit,
            Outcome::Admitted => Kind::Admit,
            Outcome::Passed(Pass::TooBig) => Kind::Big,
            Outcome::Passed(Pass::LowKey) => Kind::Low,
        }
    }
}

// An entry of the event list. It takes the kind's number and no `Kind`: 0 may be asked for too, so the enum would ask more of a caller.
pub fn event(kind: u32, file: usize) -> u32
    requires { (kind ≤ 6) × (file < catalogue_most) }
    ensures { result ≡ events.event kind file }
{
    kind * (Catalogue::MOST as u32) + file as u32
}
