// Numbers in the file. Internal: the reader and the accessors ask that the bytes are there.
ghost use Rattle.std.specs.Prelude.{◌≡◌, ◌+◌, ◌<◌, length};
ghost use Rattle.model.specs.File.{word_at, signed_byte};

// A byte as a number. (A function, for the range that callers' proofs read.)
pub fn wide(b: u8) -> usize
    ensures { (result ≡ b) × (result < 256) }
{
    usize::from(b)
}

// The number of two bytes at `at`, little-endian.
pub fn word(file: &[u8], at: usize) -> usize
    requires { at + 1 < length file.now }
    ensures { (result ≡ word_at file.now at) × (result < 65536) }
{
    usize::from(u16::from_le_bytes([file[at], file[at + 1]]))
}

// A byte as a signed number, by two's complement.
pub fn signed(b: u8) -> i32
    ensures { result ≡ signed_byte b }
{
    i32::from(b.cast_signed())
}
