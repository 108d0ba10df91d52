// What the writer makes of the lists of a table, which is read from standard input (the file stdin says how a line of it reads), and of those of 400 random loops. What it must
// print, the file stdout, was worked out from docs/FORMAT.md and the rules of document 02 by another program.
#![tactic(auto)]

mod lists;
mod random;

use trial::file::first;

// How many bytes at the end of the array are still 170.
fn left(out: &[u8; 2000]) -> usize {
    out.iter().rev().take_while(|byte| **byte == 170).count()
}

// `: N bytes, A operations, B uses, C dependences, K left` by the reader's answer on the bytes written, or its refusal.
fn print_sizes(file: &[u8], left: usize) {
    match loop_file::read(file) {
        Ok(counts) => console::list(
            b": % bytes, % operations, % uses, % dependences, % left\n",
            &[
                file.len(),
                counts.operations,
                counts.uses,
                counts.dependences,
                left,
            ],
        ),
        Err(refusal) => console::list(
            b": % bytes, refused % at %, % left\n",
            &[file.len(), refusal.number(), refusal.detail(), left],
        ),
    }
}

// A line of bytes.
fn print_bytes(file: &[u8]) {
    for (i, byte) in file.iter().enumerate() {
        if 0 < i {
            io::write_all(1, b" ");
        }
        io::print_decimal(1, u64::from(*byte));
    }
    io::write_all(1, b"\n");
}

// What was written: its sizes, and of a small file its bytes.
fn print_file(file: &[u8], left: usize) {
    print_sizes(file, left);
    if file.len() <= 64 {
        print_bytes(file);
    }
}

// The writer's answer on three lists and a buffer of so many bytes, and what it left.
fn written(ops: &[i32], uses: &[i32], deps: &[i32], bytes: usize) {
    let room = bytes.min(2000);
    let mut out = [170u8; 2000];
    match loop_writer::write(ops, uses, deps, &mut out[..room]) {
        Ok(n) => print_file(first(&out, n), left(&out)),
        Err(refusal) => console::list(
            b": refused % at %, % left\n",
            &[refusal.number(), refusal.detail(), left(&out)],
        ),
    }
}

// A line of the table: its name, and what comes of its lists. One that begins with `#` is a comment.
fn replay_line(line: &[u8]) {
    let mut ops = [0i32; 1032];
    let mut uses = [0i32; 1032];
    let mut deps = [0i32; 1032];
    let a = lists::read(line, 0, &mut ops);
    let b = lists::read(line, a.next, &mut uses);
    let c = lists::read(line, b.next, &mut deps);
    let room = console::number_at(line, c.next);
    if room.next < line.len() && line[0] != b'#' {
        console::rest(line, room.next);
        written(
            lists::first(&ops, a.count),
            lists::first(&uses, b.count),
            lists::first(&deps, c.count),
            room.value,
        );
    }
}

// The table, then the random loops.
fn main(rt: HostRuntime) {
    let mut table = [0u8; 16384];
    console::with_input(&mut rt.stdin(), &mut table, |text| {
        console::each_line(text, replay_line)
    });
    random::loops();
}
