// The page of a run: its unit, its events, its tally.
// The text is lent, so it goes with a place in it.
ghost use Rattle.trace.specs.Stores.{Roomy, Laid};
ghost use Rattle.lines.specs.Lines.{event_lines, counts_line, asked_line, last_line, page};

use crate::line::{put_event, put_item};
use tables::Tally;

// The lines of events, from a place on; the place after them.
fn put_events(events: &[u32], out: &mut [u8], from: usize) -> usize
    requires { Roomy (event_lines events.now) from out.old }
    ensures { Laid (event_lines events.now) from out.old out.new result }
{
    let mut at = from;
    for event in events {
        at = put_event(*event, out, at);
    }
    at
}

// The line of the counts, from a place on; the place after it.
fn put_counts(a: Tally, out: &mut [u8], at: usize) -> usize
    requires { Roomy (counts_line a) at out.old }
    ensures { Laid (counts_line a) at out.old out.new result }
{
    let at_hits = put_item(b"requests", a.requests, b' ', out, at);
    let at_admitted = put_item(b"hits", a.hits, b' ', out, at_hits);
    let at_passed = put_item(b"admitted", a.admitted, b' ', out, at_admitted);
    let at_evicted = put_item(b"passed", a.passed, b' ', out, at_passed);
    let at_dropped = put_item(b"evicted", a.evicted, b' ', out, at_evicted);
    put_item(b"dropped", a.dropped, b'\n', out, at_dropped)
}

// The line of what was asked and of what hits had of it, from a place on; the place after it.
fn put_asked(word: &[u8], n: u64, hit_word: &[u8], hit: u64, out: &mut [u8], at: usize) -> usize
    requires { Roomy (asked_line word.now n hit_word.now hit) at out.old }
    ensures { Laid (asked_line word.now n hit_word.now hit) at out.old out.new result }
{
    let at_hit = put_item(word, n, b' ', out, at);
    put_item(hit_word, hit, b'\n', out, at_hit)
}

// The last line, from a place on; the place after it.
fn put_last(a: Tally, out: &mut [u8], at: usize) -> usize
    requires { Roomy (last_line a) at out.old }
    ensures { Laid (last_line a) at out.old out.new result }
{
    let at_inflation = put_item(b"lifts", a.lifts, b' ', out, at);
    let at_used = put_item(b"L", a.inflation.0, b' ', out, at_inflation);
    let at_files = put_item(b"used", a.bytes_kept.0, b' ', out, at_used);
    put_item(b"files", a.files_kept, b'\n', out, at_files)
}

// The whole page, over the front of a text; its length.
pub fn put_page(a: Tally, events: &[u32], out: &mut [u8]) -> usize
    requires { Roomy (page a events.now) 0 out.old }
    ensures { Laid (page a events.now) 0 out.old out.new result }
{
    let at_events = put_item(b"unit", a.settings.unit.0, b'\n', out, 0);
    let at_counts = put_events(events, out, at_events);
    let at_bytes = put_counts(a, out, at_counts);
    let at_costs = put_asked(
        b"bytes",
        a.bytes_asked.0,
        b"hitbytes",
        a.hit_bytes.0,
        out,
        at_bytes,
    );
    let at_last = put_asked(
        b"cost",
        a.cost_asked.0,
        b"hitcost",
        a.hit_cost.0,
        out,
        at_costs,
    );
    put_last(a, out, at_last)
}
