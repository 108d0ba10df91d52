// The searches of a table, which is read from standard input (the file stdin says how a line of it reads): a line for each, with what it leaves in lent memory. What it must print,
// the file stdout, was worked out by hand from document 01.
#![tactic(auto)]

mod memory;

use search::{Solution, Unsolved};
use trial::loops::put_changed;

// `: interval I resource R recurrence B stages S probes P`.
fn found(s: Solution) {
    let numbers = [s.interval, s.resource, s.recurrence, s.stages, s.probes];
    console::list(
        b": interval % resource % recurrence % stages % probes %",
        &numbers,
    );
}

// `: refused N at D`, with ` after K` where a search was made.
fn refused(unsolved: Unsolved) {
    let numbers = [unsolved.number(), unsolved.detail(), unsolved.probes()];
    match unsolved {
        Unsolved::Refused(_) => console::list(b": refused % at %", &numbers),
        _ => console::list(b": refused % at % after %", &numbers),
    }
}

// One of these.
fn answered(answer: Result<Solution, Unsolved>) {
    match answer {
        Ok(s) => found(s),
        Err(unsolved) => refused(unsolved),
    }
}

// The numbers of a case: the file that is searched, the request, and the memory that is lent.
#[derive(Clone, Copy)]
struct Case {
    file: usize,
    length: usize,
    at: usize,
    byte: u8,
    cap: usize,
    horizon: usize,
    allowance: usize,
    list: usize,
    rows: usize,
}

// The search of the first bytes with the request of a case, in memory that is lent.
fn searched(bytes: &[u8], c: Case, list: &mut [u16], rows: &mut [u64]) {
    let n = c.length.min(bytes.len());
    answered(search::search(&bytes[..n], c.cap, c.horizon, c.allowance, list, rows));
}

// The same, and what it leaves there.
fn shown(bytes: &[u8], c: Case, list: &mut [u16], rows: &mut [u64]) {
    searched(bytes, c, list, rows);
    memory::show_list(list);
    memory::show_rows(rows);
}

// The same, with as much of a list and a table as the case says.
fn run(bytes: &[u8; 2000], c: Case) {
    let mut list = [u16::MAX; 66];
    let mut rows = [u64::MAX; 4100];
    let l = c.list.min(66);
    let r = c.rows.min(4100);
    shown(bytes, c, &mut list[..l], &mut rows[..r]);
}

// Reads a case, and writes `NAME, cap C, horizon H, allowance A, list L, rows R`.
fn heading(line: &[u8]) -> Case {
    let mut q = [0; 9];
    console::rest(line, console::numbers(line, 0, &mut q));
    let [file, length, at, byte, cap, horizon, allowance, list, rows] = q;
    let numbers = [cap, horizon, allowance, list, rows];
    console::list(b", cap %, horizon %, allowance %, list %, rows %", &numbers);
    let byte = (byte % 256) as u8;
    Case {
        file,
        length,
        at,
        byte,
        cap,
        horizon,
        allowance,
        list,
        rows,
    }
}

// A case, and its search.
fn replay_case(line: &[u8]) {
    let c = heading(line);
    let mut bytes = [0; 2000];
    put_changed(&mut bytes, c.file, c.at, c.byte);
    run(&bytes, c);
    io::write_all(1, b"\n");
}

// A line of the table. One that begins with `#` is a comment.
fn replay_line(line: &[u8]) {
    match line {
        [] | [b'#', ..] => {}
        _ => replay_case(line),
    }
}

fn main(rt: HostRuntime) {
    let mut table = [0u8; 16384];
    console::with_input(&mut rt.stdin(), &mut table, |text| {
        console::each_line(text, replay_line)
    });
}
