// 4,294,967,295 requests pass; one more is 5.
// The tables go one by one, as `carry_on` takes them, in arrays of a fixed length: the project has no heap.
use crate::sheets::settings;
use amounts::{Bytes, Cost, Places, Requests, Settings};
use replay::carry_on;
use std::io;
use std::io::Print;
use tables::Tally;

// One request short of the run limit.
const BEFORE: u64 = Requests::MOST - 1;

// The size of a file that is one more than the capacity.
const BIG: u64 = 101;

// The tally of a run that passed all its requests, each too big at cost 1, and has room for one more.
fn before_limit(chosen: Settings) -> Tally {
    Tally {
        requests: BEFORE,
        passed: BEFORE,
        bytes_asked: Bytes(BEFORE * BIG),
        cost_asked: Cost(BEFORE),
        ..Tally::new(chosen)
    }
}

// The part twice, one turn up to the run limit and one past it: the tally, and the number of the last answer, 0 where it is done.
fn over_limit(
    begun: Tally,
    place: &mut [u16],
    file: &mut [u16],
    size: &mut [u32],
    cost: &mut [u16],
    freq: &mut [u32],
    key: &mut [u64],
    stamp: &mut [u64],
    queue: &mut [u16],
    part: &[u8],
    events: &mut [u32],
) -> (Tally, u64) {
    let mut tally = begun;
    let mut number = 0;
    for _ in 0..2 {
        let ran = carry_on(
            tally.settings.unit,
            tally,
            place,
            file,
            size,
            cost,
            freq,
            key,
            stamp,
            queue,
            part,
            events,
        );
        match ran {
            Ok(ended) => {
                tally = ended.tally;
                number = 0;
            }
            Err(refusal) => number = refusal.number(),
        }
    }
    (tally, number)
}

fn print_line(rt: &impl Print, word: &str, n: u64) -> io::Result<()> {
    println!(rt; "{word} {n}")
}

// The same over tables of its own, which such a run leaves as a fresh start does; file 1 of size 1 and cost 1 is asked for.
pub(crate) fn run_limit(rt: &impl Print) -> io::Result<()> {
    let mut place = [Places::NONE; 4];
    let mut file = [0u16; 1];
    let mut size = [0u32; 1];
    let mut cost = [0u16; 1];
    let mut freq = [0u32; 1];
    let mut key = [0u64; 1];
    let mut stamp = [0u64; 1];
    let mut queue = [0u16; 1];
    let part = [1u8; 3];
    let mut events = [0u32; 3];
    let (tally, number) = over_limit(
        before_limit(settings(3, 100, 1)),
        &mut place,
        &mut file,
        &mut size,
        &mut cost,
        &mut freq,
        &mut key,
        &mut stamp,
        &mut queue,
        &part,
        &mut events,
    );
    print_line(rt, "requests", tally.requests)?;
    print_line(rt, "admitted", tally.admitted)?;
    print_line(rt, "passed", tally.passed)?;
    print_line(rt, "refused", number)
}
