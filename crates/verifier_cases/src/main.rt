// The verdicts of a table, which is read from standard input (the file stdin says how a line of it reads), a line each; and those on 400 random lists against a picture of the
// slots. What it must print of the table, the file stdout, was worked out by hand from document 01, and the last line by another program.
#![tactic(auto)]

mod random;

use trial::drawn::byte;
use trial::file::first;
use trial::loops::put_changed;
use verifier::{Refusal, Verdict};

// `: legal`, `: dependence E`, `: conflict A B at P`, or `: refused N at D`.
fn print(found: Result<Verdict, Refusal>) {
    match found {
        Ok(Verdict::Legal) => console::list(b": legal\n", &[]),
        Ok(Verdict::Broken(e)) => console::list(b": dependence %\n", &[e]),
        Ok(Verdict::Conflict(a, b, place)) => {
            console::list(b": conflict % % at %\n", &[a, b, place])
        }
        Err(refusal) => {
            console::list(b": refused % at %\n", &[refusal.number(), refusal.detail()])
        }
    }
}

// A number as a start.
fn start(x: usize) -> u16 {
    (x % 65536) as u16
}

// The verdict on the file, the interval and the starts of a case.
fn of_case(q: [usize; 10]) -> Result<Verdict, Refusal> {
    let [which, len, at, value, interval, count, a, b, c, d] = q;
    let mut file = [0u8; 2000];
    put_changed(&mut file, which, at, byte(value));
    let starts = [start(a), start(b), start(c), start(d)];
    verifier::verify(first(&file, len), interval, &starts[..count.min(4)])
}

// A line of the table: its name, and the verdict. One that begins with `#` is a comment.
fn replay_line(line: &[u8]) {
    let mut q = [0usize; 10];
    let at = console::numbers(line, 0, &mut q);
    if at < line.len() && line[0] != b'#' {
        console::rest(line, at);
        print(of_case(q));
    }
}

// The table, then the random lists.
fn main(rt: HostRuntime) {
    let mut table = [0u8; 16384];
    console::with_input(&mut rt.stdin(), &mut table, |text| {
        console::each_line(text, replay_line)
    });
    random::lists();
}
