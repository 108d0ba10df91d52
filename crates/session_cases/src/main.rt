// Sessions of a table, which is read from standard input (the file stdin says how a line of it reads): a line for each opening, and below it a line for each call, with what it leaves
// in the session and in the lent table. What it must print, the file stdout, was worked out by hand from document 01; the numbers of free rows (document 02, order 4) were computed by
// another program, from the rows that a line shows and again from its starts.
#![tactic(auto)]

mod show;

ghost use Rattle.session.specs.View.{Valid};

use session::{Call, Session};
use show::UNTOUCHED;
use trial::loops::put_changed;

// A line of the table: an opening, a call, or neither, a comment for instance.
#[derive(Clone, Copy)]
enum Line {
    Opening,
    Calling(Call),
    Neither,
}

// What a line is, by its first number, and of a call the two numbers behind it.
fn read_line(line: &[u8]) -> Line {
    if let [] | [b'#', ..] = line {
        return Line::Neither;
    }
    let mut q = [0; 3];
    console::numbers(line, 0, &mut q);
    let [kind, op, start] = q;
    match kind {
        0 => Line::Opening,
        1 => Line::Calling(Call::Place { op, start }),
        2 => Line::Calling(Call::Force { op, start }),
        3 => Line::Calling(Call::Remove { op }),
        4 => Line::Calling(Call::Checkpoint),
        5 => Line::Calling(Call::Release),
        6 => Line::Calling(Call::Rollback { checkpoint: op }),
        _ => Line::Neither,
    }
}

// `  place O at S`, `  force O at S`, `  remove O`, `  checkpoint`, `  release` or `  rollback M`.
fn asked(c: Call) {
    match c {
        Call::Place { op, start } => console::list(b"  place % at %", &[op, start]),
        Call::Force { op, start } => console::list(b"  force % at %", &[op, start]),
        Call::Remove { op } => console::list(b"  remove %", &[op]),
        Call::Checkpoint => console::list(b"  checkpoint", &[]),
        Call::Release => console::list(b"  release", &[]),
        Call::Rollback { checkpoint } => console::list(b"  rollback %", &[checkpoint]),
    }
}

// A call with its line.
fn made(s: &mut Session, rows: &mut [u64], c: Call)
    requires { Valid s.old rows.old }
    ensures { Valid s.new rows.new }
{
    asked(c);
    show::replied(s.make(rows, c));
    show::state(s, rows);
}

// The calls up to the next opening.
fn calls(table: &[u8], mut s: Session, rows: &mut [u64])
    requires { Valid s rows.old }
{
    for line in table.split(|byte| *byte == b'\n') {
        match read_line(line) {
            Line::Opening => return,
            Line::Calling(c) => made(&mut s, rows, c),
            Line::Neither => {}
        }
    }
}

// The line of an opening that is fine, and the calls of the table that follows.
fn begun(table: &[u8], s: Session, rows: &mut [u64])
    requires { Valid s rows.old }
{
    io::write_all(1, b": fine");
    show::state(&s, rows);
    calls(table, s, rows);
}

// Opens a session of a file, in rows that are lent.
fn play(file: &[u8], interval: usize, horizon: usize, table: &[u8], rows: &mut [u64]) {
    match session::open(file, interval, horizon, rows) {
        Ok(s) => begun(table, s, rows),
        Err(refusal) => show::shut(rows, refusal),
    }
}

// The numbers of an opening: the file, the session that it asks for, and how many rows are lent.
#[derive(Clone, Copy)]
struct Opening {
    file: usize,
    length: usize,
    at: usize,
    byte: u8,
    interval: usize,
    horizon: usize,
    rows: usize,
}

// Opens a session of the first of these bytes, with as many rows as the opening says.
fn lent(bytes: &[u8], o: Opening, table: &[u8]) {
    let mut rows = [UNTOUCHED; 4100];
    let r = o.rows.min(4100);
    let n = o.length.min(bytes.len());
    play(&bytes[..n], o.interval, o.horizon, table, &mut rows[..r]);
}

// Reads an opening, and writes `NAME, interval I, horizon H, table T`.
fn heading(line: &[u8]) -> Opening {
    let mut q = [0; 8];
    console::rest(line, console::numbers(line, 0, &mut q));
    let [_, file, length, at, byte, interval, horizon, rows] = q;
    console::list(
        b", interval %, horizon %, table %",
        &[interval, horizon, rows],
    );
    let byte = (byte % 256) as u8;
    Opening {
        file,
        length,
        at,
        byte,
        interval,
        horizon,
        rows,
    }
}

// An opening and its calls.
fn scene(line: &[u8], table: &[u8]) {
    let o = heading(line);
    let mut bytes = [0; 2000];
    put_changed(&mut bytes, o.file, o.at, o.byte);
    lent(&bytes, o, table);
}

// The openings of the table, each with what follows its line.
fn replay(table: &[u8]) {
    let mut at = 0;
    while at < table.len() {
        let end = console::find(table, at, b'\n');
        let line = &table[at..end];
        if let Line::Opening = read_line(line) {
            scene(line, &table[end..]);
        }
        at = end + 1;
    }
}

fn main(rt: HostRuntime) {
    let mut table = [0u8; 16384];
    console::with_input(&mut rt.stdin(), &mut table, replay);
}
