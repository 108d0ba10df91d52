// What opening is refused for, in document 01's order.
ghost use Rattle.std.specs.Prelude.{◌≡◌};
ghost use Rattle.model.specs.Refusals.{first_refusal};
ghost use Rattle.model.specs.Session.{open_checks};
ghost use Rattle.refusals.specs.Told.{refusal_of};

use refusals::{Refusal, lent, range};

// Opening with any file and numbers, and a table of so many rows.
pub fn openable(file: &[u8], interval: usize, horizon: usize, rows: usize) -> Result<(), Refusal>
    ensures { refusal_of result ≡ first_refusal (open_checks file.now interval horizon rows) }
{
    loop_file::read(file)?;
    range(1, 4096, interval)?;
    range(2, 4096, horizon)?;
    lent(interval, rows)
}
