// The session's own copy of its file. Internal: asks for a file that is not too long.
ghost use Rattle.std.specs.Prelude.{◌≡◌, ◌++◌, ◌≤◌, length, drop};
ghost use Rattle.model.specs.File.{longest};

use loop_access::LONGEST;

// The file, in the session's own store.
pub fn copy_file(file: &[u8], store: &mut [u8; LONGEST])
    requires { (length file.now ≤ longest) × (length store.old ≡ longest) }
    ensures { store.new ≡ file.now ++ drop (length file.now) store.old }
{
    store[..file.len()].copy_from_slice(file);
}
