// Reading requests, from a further part or from behind the settings of a file.
// Lists that are written to go one by one, since C lends them so, and a value of the three would be made for one call.
ghost use Rattle.std.specs.Prelude.{◌≡◌, ◌≤◌, ◌<◌, length, drop};
ghost use Rattle.trace.specs.Reading.{read_of, rows};
ghost use Rattle.trace.specs.Steps.{Requested, RequestAt, RequestRead, counted, Ready, ReadFrom};
ghost use Rattle.trace.specs.Promise.{Over, ReadPart};

use crate::number::{number_at, read_field};
use crate::numbers::FileNumbers;
use crate::request::{Request, is_file};
use amounts::{Bytes, Catalogue, Cost};
use card::Refusal;

// The place after the request at a place, whose three fields are judged one by one.
#[inline(always)]
fn past_request(part: &[u8], catalogue: Catalogue, at: usize) -> Result<usize, Refusal>
    requires { at < length part.now }
    ensures { RequestRead (read_of (length part.now) catalogue.0 (drop at part.now)) part.now catalogue.0 at result }
{
    let file = read_field(
        part,
        at,
        |value| is_file(catalogue, value),
        Refusal::Range(at),
    )?;
    let size = read_field(part, file.next, Bytes::is_size, Refusal::Range(file.next))?;
    let cost = read_field(part, size.next, Cost::is_cost, Refusal::Range(size.next))?;
    Ok(cost.next)
}

// The checking pass: how many requests there are from a place on, or the refusal. Each request says where the next one
// starts, so the loop is by hand.
pub fn scan(part: &[u8], catalogue: Catalogue, from: usize) -> Result<usize, Refusal>
    requires { from ≤ length part.now }
    ensures { result ≡ counted 0 (read_of (length part.now) catalogue.0 (drop from part.now)) }
{
    let mut count: usize = 0;
    let mut at = from;
    while at < part.len() {
        at = past_request(part, catalogue, at)?;
        count += 1;
    }
    Ok(count)
}

// A request of the part, and the place after it.
#[derive(Clone, Copy)]
pub struct Taken {
    pub request: Request,
    pub next: usize,
}

// The request at a place where there is one.
pub fn request_at(part: &[u8], at: usize) -> Taken
    requires { Requested part.now at }
    ensures { RequestAt part.now at result }
{
    let file = number_at(part, at);
    let size = number_at(part, file.next);
    let cost = number_at(part, size.next);
    let request = Request {
        file: (file.value % 65536) as u16,
        size: (size.value % 4294967296) as u32,
        cost: (cost.value % 65536) as u16,
    };
    Taken {
        request,
        next: cost.next,
    }
}

// The writing pass, over requests that the checking pass found good. It goes into no caller, so that its loop has the
// registers to itself.
#[inline(never)]
pub(crate) fn fill(
    part: &[u8],
    catalogue: u64,
    from: usize,
    count: usize,
    files: &mut [u16],
    sizes: &mut [u32],
    costs: &mut [u16],
)
    requires { Ready part.now catalogue from count files.old sizes.old costs.old }
    ensures { Over (rows (read_of (length part.now) catalogue (drop from part.now))) files.old sizes.old costs.old files.new sizes.new costs.new }
{
    let mut at = from;
    for i in 0..count {
        let taken = request_at(part, at);
        files[i] = taken.request.file;
        sizes[i] = taken.request.size;
        costs[i] = taken.request.cost;
        at = taken.next;
    }
}

// The requests from a place on, into the fronts of three lists.
pub(crate) fn read_from(
    part: &[u8],
    numbers: FileNumbers,
    from: usize,
    files: &mut [u16],
    sizes: &mut [u32],
    costs: &mut [u16],
) -> Result<usize, Refusal>
    requires { from ≤ length part.now }
    ensures { ReadFrom (read_of (length part.now) numbers.catalogue.0 (drop from part.now)) files.old sizes.old costs.old result files.new sizes.new costs.new }
{
    let count = scan(part, numbers.catalogue, from)?;
    if files.len() < count || sizes.len() < count || costs.len() < count {
        return Err(Refusal::Room);
    }
    fill(part, numbers.catalogue.0, from, count, files, sizes, costs);
    Ok(count)
}

// The requests of a further part, into the fronts of three lists, which go one by one since C lends them so.
pub fn read_part(
    catalogue: Catalogue,
    part: &[u8],
    files: &mut [u16],
    sizes: &mut [u32],
    costs: &mut [u16],
) -> Result<usize, Refusal>
    ensures { ReadPart catalogue.0 part.now files.old sizes.old costs.old result files.new sizes.new costs.new }
{
    let numbers = FileNumbers::of(catalogue)?;
    read_from(part, numbers, 0, files, sizes, costs)
}
