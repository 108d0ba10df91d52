// Starts written to the caller's list. Internal: asks that both lists are long enough.
ghost use Rattle.std.specs.Prelude.{◌≡◌, ◌++◌, ◌≤◌, length, take, drop};

// The first n starts, in the caller's list.
pub fn write_list(list: &mut [u16], starts: &[u16], n: usize)
    requires { (n ≤ length list.old) × (n ≤ length starts.now) }
    ensures { list.new ≡ take n starts.now ++ drop n list.old }
{
    list[..n].copy_from_slice(&starts[..n]);
}
