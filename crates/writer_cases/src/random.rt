// 400 random loops: what the writer makes of the numbers of a file is the file.
use crate::lists::first;
use loop_access::bytes::signed;
use trial::drawn::Drawn;
use trial::random::{next, pick};
use trial::{draw, file};

// A loop of 1 to 6 operations and 0 to 6 dependences.
fn draw_loop(seed: usize) -> Drawn {
    let a = next(seed);
    let b = next(a);
    let d = draw::blank(b, pick(a, 1, 6), pick(b, 0, 7), 1, 1);
    draw::draw_deps(draw::draw_uses(draw::draw_latencies(d, 6), 6), 6)
}

// The numbers of a body; how many there are. Each byte is read as a signed one: only a delay can be above 127.
fn numbers(body: &[u8], list: &mut [i32; 1032]) -> usize {
    for (number, byte) in list.iter_mut().zip(body) {
        *number = signed(*byte);
    }
    body.len().min(1032)
}

// Writes the loop of a file into an array; how many bytes, where it is not refused.
fn copied(file: &[u8], out: &mut [u8; 2000]) -> Option<usize> {
    let mut ops = [0i32; 1032];
    let mut uses = [0i32; 1032];
    let mut deps = [0i32; 1032];
    let a = numbers(loop_file::oper_body(file), &mut ops);
    let b = numbers(loop_file::uses_body(file), &mut uses);
    let c = numbers(loop_file::deps_body(file), &mut deps);
    loop_writer::write(first(&ops, a), first(&uses, b), first(&deps, c), out).ok()
}

// Whether a loop is written as it stands in its file, which is put into an array of 170s like the writer's: so what is behind the file is compared too.
fn is_same(len: usize, from: &[u8; 2000]) -> bool {
    let mut out = [170u8; 2000];
    let written = copied(file::first(from, len), &mut out);
    written == Some(len)
        && out == *from
        && loop_file::read(file::first(&out, len)) == loop_file::read(file::first(from, len))
}

// All loops, and the line: how many were written as they stand in their files, and how many bytes the files have.
pub fn loops() {
    let mut seed = 1;
    let mut same = 0;
    let mut bytes = 0;
    for _ in 0..400usize {
        let d = draw_loop(seed);
        let mut from = [170u8; 2000];
        let len = file::put_file(&mut from, d);
        if is_same(len, &from) {
            same += 1;
        }
        bytes += len;
        seed = d.seed;
    }
    console::list(b"random: 400 loops, % the same, % bytes\n", &[same, bytes]);
}
