// What the programs `schedule` and `plan` both print: a refusal, and the operations of a schedule (document 01).
#![tactic(auto)]

// `refused N at D`.
pub fn refused(number: usize, detail: usize) {
    console::list(b"refused % at %\n", &[number, detail]);
}

// `op O start S stage T cycle C order N`, for an operation and its start.
fn operation(interval: usize, starts: &[u16], op: usize, start: usize) {
    let stage = stages::stage(interval, start);
    let cycle = stages::cycle(interval, start);
    let order = stages::order(interval, starts, op);
    console::list(
        b"op % start % stage % cycle % order %\n",
        &[op, start, stage, cycle, order],
    );
}

// A line for each start.
fn operations(interval: usize, starts: &[u16]) {
    for (op, start) in starts.iter().enumerate() {
        operation(interval, starts, op, *start as usize);
    }
}

// The lines of the file's operations, whose starts are the first of the list.
pub fn print(file: &[u8], interval: usize, list: &[u16]) {
    if let Ok(counts) = loop_file::read(file) {
        if counts.operations <= list.len() {
            operations(interval, &list[..counts.operations]);
        }
    }
}
