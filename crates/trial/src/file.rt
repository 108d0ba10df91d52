// The file of a drawn loop, in an array of the size that the worked loops are put into.
ghost use Rattle.std.specs.Prelude.{◌≡◌, ◌%◌, ◌≤◌, take};
ghost use Rattle.trial.specs.Loops.{changed};

use crate::drawn::{Drawn, byte, duration, field, latency};

// The head and the entries, without the offsets and lengths that a loop decides on.
const HEAD: [u8; 26] = *b"\x01\x03OPER\x1a\x00\x00\x00USES\x00\x00\x00\x00DEPS\x00\x00\x00\x00";

// The lowest byte of v at a place, where the array has it.
pub fn put(file: &mut [u8; 2000], at: usize, v: usize)
    ensures { file.new ≡ changed at (v % 256) file.old }
{
    if at < 2000 {
        file[at] = byte(v);
    }
}

// The head of a file whose bodies end at these offsets.
fn put_head(file: &mut [u8; 2000], ops: usize, uses: usize, deps: usize)
    requires { (26 ≤ ops) × (ops ≤ uses) × (uses ≤ deps) }
{
    file[..26].copy_from_slice(&HEAD);
    put(file, 8, ops - 26);
    put(file, 14, ops);
    put(file, 16, uses - ops);
    put(file, 22, uses);
    put(file, 24, deps - uses);
}

// The number of slots that an operation uses.
fn use_count(d: Drawn, op: usize) -> usize {
    (0..3).filter(|slot| duration(d, op, *slot) > 0).count()
}

// n operations.
fn put_operations(file: &mut [u8; 2000], d: Drawn, n: usize)
    requires { n ≤ 6 }
{
    for op in 0..n {
        put(file, 26 + 2 * op, latency(d, op));
        put(file, 27 + 2 * op, use_count(d, op));
    }
}

// The uses of n operations, from `from` on; the offset behind them.
fn put_uses(file: &mut [u8; 2000], d: Drawn, n: usize, from: usize) -> usize
    requires { (n ≤ 6) × (from ≤ 38) }
    ensures { (from ≤ result) × (result ≤ 74) }
{
    let mut at = from;
    for op in 0..n {
        for slot in 0..3 {
            let cycles = duration(d, op, slot);
            if cycles > 0 {
                put(file, at, slot + 1);
                put(file, at + 1, cycles);
                at += 2;
            }
        }
    }
    at
}

// m dependences, from `from` on. In the file a delay is a signed byte.
fn put_deps(file: &mut [u8; 2000], d: Drawn, m: usize, from: usize)
    requires { (m ≤ 6) × (from ≤ 74) }
{
    for e in 0..m {
        for which in 0..4 {
            let x = field(d, e, which);
            put(
                file,
                from + 4 * e + which,
                if which == 2 { x + 250 } else { x },
            );
        }
    }
}

// Puts the file of a drawn loop at the start of the array; its length.
pub fn put_file(file: &mut [u8; 2000], d: Drawn) -> usize
    ensures { result ≤ 98 }
{
    let n = d.n.min(6);
    let m = d.m.min(6);
    let ops = 26 + 2 * n;
    put_operations(file, d, n);
    let uses = put_uses(file, d, n, ops);
    let deps = uses + 4 * m;
    put_deps(file, d, m, uses);
    put_head(file, ops, uses, deps);
    deps
}

// The first bytes of the array; all where there are fewer.
pub fn first(file: &[u8; 2000], len: usize) -> &[u8]
    ensures { result.now ≡ take len file.now }
{
    &file[..len.min(2000)]
}
