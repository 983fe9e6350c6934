// Pieces that a sheet shows: the trace is written, read back and run as the program would.
use amounts::{Bytes, Catalogue, Places, Policy, Settings, Unit};
use std::io;
use std::io::Print;

// Settings of policy 1 with a catalogue of four.
pub(crate) fn settings(unit: u64, capacity: u64, places: u64) -> Settings {
    Settings {
        unit: Unit(unit),
        policy: Policy(Policy::SIZE),
        capacity: Bytes(capacity),
        places: Places(places),
        catalogue: Catalogue(4),
    }
}

// Writes the trace of the requests into a buffer, with its length beside since there is no heap, and prints its sheet.
fn print_sheet(
    rt: &impl Print,
    settings: Settings,
    files: &[u16],
    sizes: &[u32],
    costs: &[u16],
) -> io::Result<()> {
    let mut bytes = [0u8; 64];
    match writer::write_file(settings, files, sizes, costs, &mut bytes) {
        Ok(count) if count <= bytes.len() => print_bytes(rt, &bytes[..count]),
        _ => Ok(()),
    }
}

// Prints the sheet of a trace.
fn print_bytes(rt: &impl Print, trace: &[u8]) -> io::Result<()> {
    let mut out = [0u8; 1024];
    match layout::sheet(trace, &mut out) {
        Ok(length) => rt.write_all(&out[..length]),
        Err(_) => Ok(()),
    }
}

// Size equal to the capacity: kept. One more: big.
pub(crate) fn size_of_the_capacity(rt: &impl Print) -> io::Result<()> {
    let files = [1u16, 2];
    let sizes = [100u32, 101];
    let costs = [1u16, 1];
    print_sheet(rt, settings(1, 100, 4), &files, &sizes, &costs)
}

// Places 1, policy 1: each new file evicts the one before.
pub(crate) fn one_place(rt: &impl Print) -> io::Result<()> {
    let files = [0u16, 1, 2, 3];
    let sizes = [10u32, 10, 10, 10];
    let costs = [1u16, 1, 1, 1];
    print_sheet(rt, settings(2, 100, 1), &files, &sizes, &costs)
}

// A recut drops the old copy before it evicts; asked for again, it is a hit at the cost that is kept.
pub(crate) fn recut(rt: &impl Print) -> io::Result<()> {
    let files = [1u16, 2, 1, 1];
    let sizes = [64u32, 32, 80, 80];
    let costs = [4u16, 1, 5, 9];
    print_sheet(rt, settings(4, 100, 4), &files, &sizes, &costs)
}
