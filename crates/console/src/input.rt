// Standard input, read to its end.
ghost use Rattle.std.specs.Prelude.{◌≡◌, ◌≤◌, ℕ, true, length, take, IfOk, IfSome, MatchResult};
ghost use Rattle.std.specs.Fn.{FnOnceReturnsAt};
ghost use Rattle.io.specs.Counts.{IsPrefixLen};

use crate::line::text;
use std::io::{Error, Read, Stdin};

// Reads once, and puts what came behind the first `have` bytes, as far as there is room: how many bytes are kept then, or none at the end of the input. Only a read of no bytes is the end: one of few is not.
#[tactic(auto, using(crate::proofs::Lines::put_within))]
fn read_once(from: &mut Stdin, bytes: &mut [u8], have: usize) -> Result<Option<usize>, Error>
    requires { have ≤ length bytes.old }
    ensures kept { IfOk result (λ o. IfSome o (λ next. next ≤ length bytes.new)) }
    ensures bytes_len_unchanged { length bytes.new ≡ length bytes.old }
{
    let mut chunk = io::buffer();
    match from.read(&mut chunk)? {
        0 => Ok(None),
        n => Ok(Some(text(bytes, have, &chunk[..n]))),
    }
}

// Reads to the end: keeps as many bytes as there is room for, and drops the rest. How many are kept, at the start of the buffer: `Ok` where the input came whole, and `Err` where a read failed. The loop counts its turns,
// since nothing says that an input ends, up to a number that no input uses up.
pub fn read_all(from: &mut Stdin, bytes: &mut [u8]) -> Result<usize, usize>
    ensures prefix_len { MatchResult result (λ n. IsPrefixLen n bytes.new) (λ n. IsPrefixLen n bytes.new) }
    ensures bytes_len_unchanged { length bytes.new ≡ length bytes.old }
{
    let mut have = 0;
    for _ in 0..u64::MAX {
        match read_once(from, bytes, have) {
            Ok(Some(next)) => have = next,
            Ok(None) => return Ok(have),
            Err(_) => return Err(have),
        }
    }
    Err(have)
}

// Reads to the end, and gives the bytes that are kept to f, where the input came whole; else says that it cannot be read. Whether it came whole.
pub fn with_input<F: FnOnce(&[u8])>(from: &mut Stdin, bytes: &mut [u8], f: F) -> bool
    requires { F.IsAlwaysCallable f }
    ensures given { result ≡ true → (n : ℕ) × IsPrefixLen n bytes.new × FnOnceReturnsAt F.FnOnce f (take n bytes.new) tt }
    ensures bytes_len_unchanged { length bytes.new ≡ length bytes.old }
{
    let read = read_all(from, bytes);
    match read {
        Ok(n) => f(&bytes[..n]),
        Err(_) => {
            io::write_all(1, b"cannot read\n");
        }
    }
    read.is_ok()
}
