// Reserving and releasing the cells of an operation, bit by bit. The number of the operation's first use, `first`, is handed in: it is worked out once for each chosen
// operation, which is reserved and released at many starts. Internal: each function asks that the cells are clear, or set.
ghost use Rattle.std.specs.Prelude.{◌≡◌, ℕ, ◌<◌, ◌≤◌, length};
ghost use Rattle.model.specs.Loop.{size, op_at, first_use_of};
ghost use Rattle.model.specs.File.{loop_of, Accepted};
ghost use Rattle.model.specs.Table.{row_base, digit_of};
ghost use Rattle.reservation.specs.Rows.{over_use, over_uses, with_one, less_one, Leaves, UseIn, UsesIn};

use loop_access::{duration, offset, slot, use_count};

// A change to the bit of a slot in a row.
trait Change {
    // The bit as it has to be before.
    ghost before: { ℕ };

    // What becomes of the row, by the slot.
    ghost after: { ℕ → ℕ → ℕ };

    // The row with the bit changed.
    fn change(row: u64, slot: usize) -> u64
        requires { (1 ≤ slot) × (slot ≤ 24) × (digit_of row_base row slot ≡ before) }
        ensures { result ≡ after slot row };
}

// Sets a bit that is clear.
struct Set;

impl Change for Set {
    ghost before = { 0 };

    ghost after = { with_one row_base };

    fn change(row: u64, slot: usize) -> u64 {
        row | (1 << (slot - 1))
    }
}

// Clears a bit that is set.
struct Clear;

impl Change for Clear {
    ghost before = { 1 };

    ghost after = { less_one row_base };

    fn change(row: u64, slot: usize) -> u64 {
        row & !(1 << (slot - 1))
    }
}

// Changes the bits of one use of n cycles from `start` on.
fn change_use<C: Change>(rows: &mut [u64], interval: usize, start: usize, n: usize, slot: usize)
    requires { UseIn row_base C.before rows.old interval start n slot }
    ensures { rows.new ≡ over_use (C.after slot) interval start n rows.old }
{
    for k in 0..n {
        let row = (start + k) % interval;
        rows[row] = C::change(rows[row], slot);
    }
}

// Changes the bits of an operation, use by use. Each change has to leave the bits of other slots as they are.
fn change_cells<C: Change>(
    file: &[u8],
    op: usize,
    first: usize,
    start: usize,
    interval: usize,
    rows: &mut [u64],
)
    requires in_table { Accepted file.now × (op < size (loop_of file.now)) × UsesIn row_base C.before rows.old interval start (op_at (loop_of file.now) op).uses × (first ≡ first_use_of (loop_of file.now) op) }
    requires leaves { Leaves row_base C.before C.after }
    ensures { rows.new ≡ over_uses C.after interval start (op_at (loop_of file.now) op).uses (length (op_at (loop_of file.now) op).uses) rows.old }
{
    for u in first..first + use_count(file, op) {
        change_use::<C>(
            rows,
            interval,
            start + offset(file, u),
            duration(file, u),
            slot(file, u),
        );
    }
}

// Reserves the cells of an operation that fits.
pub fn reserve(
    file: &[u8],
    op: usize,
    first: usize,
    start: usize,
    interval: usize,
    rows: &mut [u64],
)
    requires { Accepted file.now × (op < size (loop_of file.now)) × UsesIn row_base 0 rows.old interval start (op_at (loop_of file.now) op).uses × (first ≡ first_use_of (loop_of file.now) op) }
    ensures { rows.new ≡ over_uses (with_one row_base) interval start (op_at (loop_of file.now) op).uses (length (op_at (loop_of file.now) op).uses) rows.old }
{
    change_cells::<Set>(file, op, first, start, interval, rows);
}

// Releases the cells of an operation that are reserved.
pub fn release(
    file: &[u8],
    op: usize,
    first: usize,
    start: usize,
    interval: usize,
    rows: &mut [u64],
)
    requires { Accepted file.now × (op < size (loop_of file.now)) × UsesIn row_base 1 rows.old interval start (op_at (loop_of file.now) op).uses × (first ≡ first_use_of (loop_of file.now) op) }
    ensures { rows.new ≡ over_uses (less_one row_base) interval start (op_at (loop_of file.now) op).uses (length (op_at (loop_of file.now) op).uses) rows.old }
{
    change_cells::<Clear>(file, op, first, start, interval, rows);
}
