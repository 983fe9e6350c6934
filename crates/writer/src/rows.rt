// The requests of three lent lists, as one value.
ghost use Rattle.std.specs.Prelude.{length};
ghost use Rattle.trace.specs.Stores.{Listed};

use card::Refusal;
use trace::Request;

// The file list fixes the count; the sizes and costs are as many, or more.
#[derive(Clone, Copy)]
pub(crate) struct Rows<'a> {
    files: &'a [u16],
    sizes: &'a [u32],
    costs: &'a [u16],
    ghost listed: { Listed files.now sizes.now costs.now },
}

impl<'a> Rows<'a> {
    ghost use Rattle.std.specs.Prelude.{◌≡◌, ◌<◌};
    ghost use Rattle.trace.specs.Asked.{asked};
    ghost use Rattle.trace.specs.Stores.{row_at};
    ghost use Rattle.writer.specs.Rows.{Joined};

    // The requests of three lists, where there are enough sizes and costs.
    pub(crate) fn of(
        files: &'a [u16],
        sizes: &'a [u32],
        costs: &'a [u16],
    ) -> Result<Rows<'a>, Refusal>
        ensures { Joined files.now sizes.now costs.now result }
    {
        if sizes.len() < files.len() {
            return Err(Refusal::Short);
        }
        if costs.len() < files.len() {
            return Err(Refusal::Short);
        }
        Ok(Rows {
            files,
            sizes,
            costs,
        })
    }

    // How many requests there are.
    pub(crate) fn len(self) -> usize
        ensures { result ≡ length self.entry.files.now }
    {
        self.files.len()
    }

    // The request at an index.
    pub(crate) fn row(self, i: usize) -> Request
        requires { i < length self.files.now }
        ensures { asked result ≡ row_at self.entry.files.now self.entry.sizes.now self.entry.costs.now i }
    {
        Request {
            file: self.files[i],
            size: self.sizes[i],
            cost: self.costs[i],
        }
    }
}
