// The red card: why a call refuses, with what it returns then (documents 01 and 02, "Numbers on the red card" and the tickets' refusals).
#![tactic(auto)]

ghost use Rattle.std.specs.Prelude.{◌≡◌};
ghost use Rattle.card.specs.Card.{card_of, value_of};

#[derive(Clone, Copy, Debug, PartialEq, Eq)]
pub enum Refusal {
    // A setting is out of range.
    Setting,
    // A lent table is shorter than needed, or a writer's size or cost list than its file list.
    Short,
    // A number with a seventh group, a needless last 0, cut short or missing: the offset of its first byte.
    Form(usize),
    // A file, size or cost is out of range: the offset of its first byte, or the index of the request.
    Range(usize),
    // The requests would pass the limit of a run.
    TooMany,
    // The event list, the writer's buffer or a reader's list is too short.
    Room,
    // The tables are not sound.
    Unsound,
    // The tally's unit is not the one named.
    OtherUnit,
    // The program was given more input than it takes.
    TooLong,
    // A line of a log lacks a field, or counts and has a bad number or range: its number, from 1.
    Line(usize),
    // A tally has no requests to make a ratio of.
    NoRequests,
    // The bytes asked are past what a double has exactly.
    Inexact,
}

impl Refusal {
    // The number on the card, which C is told with the value below: two numbers for one refusal, which no one `From` gives.
    pub fn number(self) -> u64
        ensures { result ≡ (card_of self).number }
    {
        match self {
            Refusal::Setting => 1,
            Refusal::Short => 2,
            Refusal::Form(_) => 3,
            Refusal::Range(_) => 4,
            Refusal::TooMany => 5,
            Refusal::Room => 6,
            Refusal::Unsound => 7,
            Refusal::OtherUnit => 8,
            Refusal::TooLong => 9,
            Refusal::Line(_) => 10,
            Refusal::NoRequests => 11,
            Refusal::Inexact => 12,
        }
    }

    // What goes with the number: an offset, an index or a line, else 0.
    pub fn value(self) -> usize
        ensures { result ≡ value_of (card_of self) }
    {
        match self {
            Refusal::Form(at) => at,
            Refusal::Range(at) => at,
            Refusal::Line(at) => at,
            Refusal::Setting => 0,
            Refusal::Short => 0,
            Refusal::TooMany => 0,
            Refusal::Room => 0,
            Refusal::Unsound => 0,
            Refusal::OtherUnit => 0,
            Refusal::TooLong => 0,
            Refusal::NoRequests => 0,
            Refusal::Inexact => 0,
        }
    }
}
