// The bounds of the loops of a table, which is read from standard input (the file stdin says how a line of it reads), a line each; and those of 400 random loops against a count
// over all their cycles. What it must print of the table, the file stdout, was worked out by hand from document 01.
#![tactic(auto)]

mod cycles;
mod random;

use trial::file::{first, put};

// The bounds of a file, as `: resource R recurrence B` or `: refused N at D`.
fn answer(file: &[u8]) {
    match bounds::bounds(file) {
        Ok(found) => console::list(
            b": resource % recurrence %\n",
            &[found.resource, found.recurrence],
        ),
        Err(refusal) => console::list(b": refused % at %\n", &[refusal.number(), refusal.detail()]),
    }
}

// Puts so many bytes from `to` on, whose numbers stand in the line from `at` on; the place behind them.
fn put_bytes(file: &mut [u8; 2000], to: usize, count: usize, line: &[u8], at: usize) -> usize {
    let mut next = at;
    for i in 0..count {
        let byte = console::number_at(line, next);
        put(file, to.wrapping_add(i), byte.value);
        next = byte.next;
    }
    next
}

// A line of the table: its name, and the bounds. One that begins with `#` is a comment.
fn replay_line(line: &[u8]) {
    let mut file = [0u8; 2000];
    let mut q = [0usize; 4];
    let at = console::numbers(line, 0, &mut q);
    let [which, len, to, count] = q;
    trial::loops::put_loop(&mut file, which);
    let next = put_bytes(&mut file, to, count, line, at);
    if next < line.len() && line[0] != b'#' {
        console::rest(line, next);
        answer(first(&file, len));
    }
}

// The table, then the random loops.
fn main(rt: HostRuntime) {
    let mut table = [0u8; 16384];
    console::with_input(&mut rt.stdin(), &mut table, |text| {
        console::each_line(text, replay_line)
    });
    console::list(b"random: 400 loops, % agree\n", &[random::agreeing()]);
}
