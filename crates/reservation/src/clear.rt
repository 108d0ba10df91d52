// Clearing a table. Internal: asks that it has so many rows.
ghost use Rattle.std.specs.Prelude.{◌≡◌, ◌++◌, ◌≤◌, length, drop, replicate};

// Clears the first n rows, and no later ones.
pub fn clear_rows(rows: &mut [u64], n: usize)
    requires { n ≤ length rows.old }
    ensures { rows.new ≡ replicate n 0 ++ drop n rows.old }
{
    rows[..n].fill(0);
}
