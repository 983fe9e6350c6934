// The sheet of a trace, from its bytes.
ghost use Rattle.card.specs.Card.{card_of};
ghost use Rattle.trace.specs.Stores.{Laid};
ghost use Rattle.trace.specs.Reading.{opened};
ghost use Rattle.layout.specs.Sheet.{of_file, sheet_of};
ghost use Rattle.lines.specs.Lines.{refused_line};
ghost use Rattle.layout.specs.Steps.{Given};
ghost use Rattle.layout.specs.Promise.{Sheeted};

use crate::run::{OWN_CATALOGUE, OWN_PLACES, run_into};
use amounts::Settings;
use card::Refusal;
use lines::{put_bytes, put_item, put_page};
use trace::settings_at;

// The most bytes of input.
pub const INPUT_MOST: usize = 16384;
// Two events a request, and no trace has more requests than bytes.
const OWN_EVENTS: usize = 32768;
// No sheet is longer.
pub const SHEET_MOST: usize = 393629;

// The line of a refusal, over the front of a text; its length.
fn put_refused(refusal: Refusal, text: &mut [u8; SHEET_MOST]) -> usize
    ensures { Laid (refused_line (card_of refusal).number) 0 text.old text.new result }
{
    put_item(b"refused", refusal.number(), b'\n', text, 0)
}

// The sheet of settings and the part after them, over the front of a text; its length.
fn put_file(settings: Settings, part: &[u8], text: &mut [u8; SHEET_MOST]) -> usize
    requires { Given settings part.now }
    ensures { Laid (of_file (opened settings part.now)) 0 text.old text.new result }
{
    if OWN_PLACES < settings.places.count() {
        return put_refused(Refusal::Short, text);
    }
    if OWN_CATALOGUE < settings.catalogue.count() {
        return put_refused(Refusal::Short, text);
    }
    let mut events = [0u32; OWN_EVENTS];
    match run_into(settings, part, &mut events) {
        Err(refusal) => put_refused(refusal, text),
        Ok(ended) => put_page(ended.tally, &events[..ended.events], text),
    }
}

// The sheet of a trace, over the front of a text; its length.
fn put_sheet(trace: &[u8], text: &mut [u8; SHEET_MOST]) -> usize
    ensures { Laid (sheet_of trace.now) 0 text.old text.new result }
{
    if INPUT_MOST < trace.len() {
        return put_refused(Refusal::TooLong, text);
    }
    match settings_at(trace) {
        Err(refusal) => put_refused(refusal, text),
        Ok((settings, at)) => put_file(settings, &trace[at..], text),
    }
}

// The sheet of a trace, into the front of `out`. The text goes with its length, since the project has no heap to put it on.
pub fn sheet(trace: &[u8], out: &mut [u8]) -> Result<usize, Refusal>
    ensures { Sheeted trace.now out.old result out.new }
{
    let mut text = [0u8; SHEET_MOST];
    let count = put_sheet(trace, &mut text);
    if out.len() < count {
        return Err(Refusal::Room);
    }
    put_bytes(&text[..count], out, 0);
    Ok(count)
}
