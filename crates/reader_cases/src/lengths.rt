// Files in an array of 2,000 bytes, and what the reader says of their first bytes.
use crate::{files, show};

// Puts bytes into an array from an offset on, as far as there is room; returns the offset after them.
fn put(out: &mut [u8; 2000], at: usize, bytes: &[u8]) -> usize {
    let end = at.saturating_add(bytes.len()).min(2000);
    if at < end {
        out[at..end].copy_from_slice(&bytes[..end - at]);
    }
    at.max(end)
}

// Puts the same bytes so many times.
fn repeat(out: &mut [u8; 2000], at: usize, times: usize, bytes: &[u8]) -> usize {
    let mut next = at;
    for _ in 0..times {
        next = put(out, next, bytes);
    }
    next
}

// The answer on the first n bytes.
fn first(name: &[u8], file: &[u8], n: usize) {
    if n <= file.len() {
        io::write_all(1, name);
        show::number(b", length ", n);
        show::answer(&file[..n]);
    }
}

// The answers on the first bytes, for each of these lengths.
fn each(name: &[u8], file: &[u8], lengths: &[usize]) {
    for n in lengths {
        first(name, file, *n);
    }
}

// R in an array, and the answers on its first bytes and on R with a byte after it.
pub fn base() {
    let mut file = [0u8; 2000];
    put(&mut file, 0, &files::R);
    each(b"base", &file, &[0, 1, 25, 26, 43, 44, 45]);
}

// The largest file in an array, and the answers on it without its last byte, whole, and with bytes after it: 64 operations of latency 64
// with 4 uses, the slots 1 to 4 for 16 cycles each, and 256 dependences from 63 to 0 with delay 64 and distance 15.
pub fn largest() {
    let mut file = [0u8; 2000];
    let ops = put(&mut file, 0, &files::LARGEST_HEAD);
    let uses = repeat(&mut file, ops, 64, b"\x40\x04");
    let deps = repeat(&mut file, uses, 64, b"\x01\x10\x02\x10\x03\x10\x04\x10");
    repeat(&mut file, deps, 256, b"\x3f\x00\x40\x0f");
    each(b"largest", &file, &[1689, 1690, 1691, 2000]);
}
