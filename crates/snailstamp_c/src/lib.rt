// What C and Rust link: one export for each function of the boundary, with the same clauses, and no rule of its own.
// C lends each slice by itself, so they go one by one.
#![tactic(auto)]

ghost use Rattle.tables.specs.Tables.{tables};
ghost use Rattle.words.specs.Words.{settings_from};
ghost use Rattle.snailstamp.specs.Run.{FreshWords, CarriedWords};
ghost use Rattle.snailstamp.specs.Traces.{ReadFileWords, ReadPartWords, WroteFileWords, WrotePartWords};
ghost use Rattle.snailstamp.specs.Logs.{SquidFileWords, SquidPartWords};
ghost use Rattle.snailstamp.specs.Sheets.{SheetWords};
ghost use Rattle.snailstamp.specs.Rates.{RatioWords};

// A fresh start over the lent tables, its tally over the front of the lent words.
#[unsafe(no_mangle)]
pub extern "C" fn snailstamp_fresh(
    unit: u64,
    policy: u64,
    capacity: u64,
    places: u64,
    catalogue: u64,
    tally: &mut [u64],
    place: &mut [u16],
    file: &mut [u16],
    size: &mut [u32],
    cost: &mut [u16],
    freq: &mut [u32],
    key: &mut [u64],
    stamp: &mut [u64],
    queue: &mut [u16],
) -> u64
    ensures { FreshWords (settings_from unit policy capacity places catalogue) tally.old (tables place.old file.old size.old cost.old freq.old key.old stamp.old queue.old) result tally.new (tables place.new file.new size.new cost.new freq.new key.new stamp.new queue.new) }
{
    snailstamp::snailstamp_fresh(
        unit, policy, capacity, places, catalogue, tally, place, file, size, cost, freq, key,
        stamp, queue,
    )
}

// A run carried on over the tally that the words stand for.
#[unsafe(no_mangle)]
pub extern "C" fn snailstamp_carry_on(
    unit: u64,
    tally: &mut [u64],
    place: &mut [u16],
    file: &mut [u16],
    size: &mut [u32],
    cost: &mut [u16],
    freq: &mut [u32],
    key: &mut [u64],
    stamp: &mut [u64],
    queue: &mut [u16],
    part: &[u8],
    events: &mut [u32],
) -> u64
    ensures { CarriedWords unit part.now tally.old (tables place.old file.old size.old cost.old freq.old key.old stamp.old queue.old) events.old result tally.new (tables place.new file.new size.new cost.new freq.new key.new stamp.new queue.new) events.new }
{
    snailstamp::snailstamp_carry_on(
        unit, tally, place, file, size, cost, freq, key, stamp, queue, part, events,
    )
}

// The settings of a file over the front of lent words, its requests over the fronts of three lists.
#[unsafe(no_mangle)]
pub extern "C" fn snailstamp_read_file(
    trace: &[u8],
    settings: &mut [u64],
    files: &mut [u16],
    sizes: &mut [u32],
    costs: &mut [u16],
) -> u64
    ensures { ReadFileWords trace.now settings.old files.old sizes.old costs.old result settings.new files.new sizes.new costs.new }
{
    snailstamp::snailstamp_read_file(trace, settings, files, sizes, costs)
}

// The requests of a further part over the fronts of three lists.
#[unsafe(no_mangle)]
pub extern "C" fn snailstamp_read_part(
    catalogue: u64,
    part: &[u8],
    files: &mut [u16],
    sizes: &mut [u32],
    costs: &mut [u16],
) -> u64
    ensures { ReadPartWords catalogue part.now files.old sizes.old costs.old result files.new sizes.new costs.new }
{
    snailstamp::snailstamp_read_part(catalogue, part, files, sizes, costs)
}

// The bytes of a file over the front of `out`.
#[unsafe(no_mangle)]
pub extern "C" fn snailstamp_write_file(
    unit: u64,
    policy: u64,
    capacity: u64,
    places: u64,
    catalogue: u64,
    files: &[u16],
    sizes: &[u32],
    costs: &[u16],
    out: &mut [u8],
) -> u64
    ensures { WroteFileWords (settings_from unit policy capacity places catalogue) files.now sizes.now costs.now out.old result out.new }
{
    snailstamp::snailstamp_write_file(
        unit, policy, capacity, places, catalogue, files, sizes, costs, out,
    )
}

// The bytes of a further part over the front of `out`.
#[unsafe(no_mangle)]
pub extern "C" fn snailstamp_write_part(
    catalogue: u64,
    files: &[u16],
    sizes: &[u32],
    costs: &[u16],
    out: &mut [u8],
) -> u64
    ensures { WrotePartWords catalogue files.now sizes.now costs.now out.old result out.new }
{
    snailstamp::snailstamp_write_part(catalogue, files, sizes, costs, out)
}

// The bytes of a file over the front of `out`: the settings, then the requests of a log.
#[unsafe(no_mangle)]
pub extern "C" fn snailstamp_squid_file(
    unit: u64,
    policy: u64,
    capacity: u64,
    places: u64,
    catalogue: u64,
    log: &[u8],
    out: &mut [u8],
) -> u64
    ensures { SquidFileWords (settings_from unit policy capacity places catalogue) log.now out.old result out.new }
{
    snailstamp::snailstamp_squid_file(unit, policy, capacity, places, catalogue, log, out)
}

// The bytes of a further part over the front of `out`: the requests of a log.
#[unsafe(no_mangle)]
pub extern "C" fn snailstamp_squid_part(catalogue: u64, log: &[u8], out: &mut [u8]) -> u64
    ensures { SquidPartWords catalogue log.now out.old result out.new }
{
    snailstamp::snailstamp_squid_part(catalogue, log, out)
}

// The sheet of a trace over the front of `out`, as the program prints it.
#[unsafe(no_mangle)]
pub extern "C" fn snailstamp_sheet(trace: &[u8], out: &mut [u8]) -> u64
    ensures { SheetWords trace.now out.old result out.new }
{
    snailstamp::snailstamp_sheet(trace, out)
}

// Both ratios of the tally that the words stand for, over the front of a list.
#[unsafe(no_mangle)]
pub extern "C" fn snailstamp_ratios(tally: &[u64], ratios: &mut [f64]) -> u64
    ensures { RatioWords tally.now ratios.old result ratios.new }
{
    snailstamp::snailstamp_ratios(tally, ratios)
}
