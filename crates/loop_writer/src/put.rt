// The bytes of a file in the buffer. Internal: each asks that there is room, and writes its own bytes alone.
ghost use Rattle.std.specs.Prelude.{◌≡◌, map, ◌+◌, ◌<◌, ◌≤◌, length};
ghost use Rattle.model.specs.Writer as model;
ghost use Rattle.loop_file.specs.Read.{four_of};
ghost use Rattle.loop_writer.specs.Buffer.{stored};

// A number as a byte, by two's complement.
fn byte_of(z: i32) -> u8
    requires { model.HasByte z }
    ensures { result ≡ model.byte_of z }
{
    z.rem_euclid(256) as u8
}

// A body: each number of the list as a byte, from `at` on.
pub fn body(buffer: &mut [u8], at: usize, fields: &[i32])
    requires { (at + length fields.now ≤ length buffer.old) × model.HaveBytes fields.now }
    ensures { buffer.new ≡ stored buffer.old at (map model.byte_of fields.now) }
{
    for (i, z) in fields.iter().enumerate() {
        buffer[at + i] = byte_of(*z);
    }
}

// These bytes, from `at` on.
fn store(buffer: &mut [u8], at: usize, bytes: &[u8])
    requires { at + length bytes.now ≤ length buffer.old }
    ensures { buffer.new ≡ stored buffer.old at bytes.now }
{
    buffer[at..at + bytes.len()].copy_from_slice(bytes);
}

// A number in two bytes, little-endian.
fn word(buffer: &mut [u8], at: usize, n: usize)
    requires { (at + 2 ≤ length buffer.old) × (n < 65536) }
    ensures { buffer.new ≡ stored buffer.old at (model.word n) }
{
    store(buffer, at, &(n as u16).to_le_bytes());
}

// A section's entry in the contents: tag, offset, length.
fn entry(buffer: &mut [u8], at: usize, tag: &[u8; 4], start: usize, long: usize)
    requires { (at + 8 ≤ length buffer.old) × (start < 65536) × (long < 65536) }
    ensures { buffer.new ≡ stored buffer.old at (model.entry_bytes (four_of tag.now) start long) }
{
    store(buffer, at, tag);
    word(buffer, at + 4, start);
    word(buffer, at + 6, long);
}

// Version, number of entries, and the entries of three bodies of these lengths.
pub fn head(buffer: &mut [u8], oper: usize, uses: usize, deps: usize)
    requires { (26 ≤ length buffer.old) × (26 + oper + uses + deps < 65536) }
    ensures { buffer.new ≡ stored buffer.old 0 (model.head_bytes oper uses deps) }
{
    store(buffer, 0, &[1, 3]);
    entry(buffer, 2, b"OPER", 26, oper);
    entry(buffer, 10, b"USES", 26 + oper, uses);
    entry(buffer, 18, b"DEPS", 26 + oper + uses, deps);
}
