// The sheet of a trace.
ghost use Rattle.snailstamp.specs.Sheets.{SheetWords};

use words::answer_word;

// The sheet of a trace over the front of `out`, as the program prints it.
pub fn snailstamp_sheet(trace: &[u8], out: &mut [u8]) -> u64
    ensures { SheetWords trace.now out.old result out.new }
{
    let laid = layout::sheet(trace, out);
    answer_word(laid)
}
