// What a line shows: an answer, the placed operations with their starts, how many checkpoints are open, how many rows each slot has free, and the table.
ghost use Rattle.std.specs.Prelude.{◌≤◌};

use session::{Refusal, Reply, Session};

// What stands in each row of a table before it is lent. No row of a session is this large.
pub const UNTOUCHED: u64 = u64::MAX;

// `: refused N at D`.
fn refused(refusal: Refusal) {
    console::list(b": refused % at %", &[refusal.number(), refusal.detail()]);
}

// `: done`, `: displaced M`, `: number C`, or a refusal.
pub fn replied(answer: Result<Reply, Refusal>) {
    match answer {
        Ok(Reply::Done) => console::list(b": done", &[]),
        Ok(Reply::Displaced(mask)) => console::list(b": displaced %", &[mask as usize]),
        Ok(Reply::Numbered(m)) => console::list(b": number %", &[m]),
        Err(refusal) => refused(refusal),
    }
}

// The numbers that are not the usual one, with their places, counted from `first`, in the form of the template; or what is said where there are none.
fn others(numbers: &[u16], usual: usize, first: usize, template: &[u8], nothing: &[u8])
    requires { first ≤ 1 }
{
    let mut shown = false;
    for (i, number) in numbers.iter().enumerate() {
        let n = *number as usize;
        if n != usual {
            console::list(template, &[first + i, n]);
            shown = true;
        }
    }
    if !shown {
        io::write_all(1, nothing);
    }
}

// ` O@S O@S ..` with the placed operations, or ` none`.
fn starts(at: &[u16; 64]) {
    others(at, 65535, 0, b" %@%", b" none");
}

// ` S:N S:N ..` with the slots that do not have all rows free, and how many they have, or ` all`.
fn free(numbers: &[u16; 24], interval: usize) {
    others(numbers, interval, 1, b" %:%", b" all");
}

// Each row up to 8, as ` V`, or those of more that are not 0, as ` R:V`; ` clear` where none is shown.
fn each(rows: &[u64]) {
    let mut shown = false;
    for (i, row) in rows.iter().enumerate() {
        let v = *row as usize;
        if rows.len() <= 8 {
            console::list(b" %", &[v]);
            shown = true;
        } else if v != 0 {
            console::list(b" %:%", &[i, v]);
            shown = true;
        }
    }
    if !shown {
        io::write_all(1, b" clear");
    }
}

// Whether no row was written.
fn untouched(rows: &[u64]) -> bool {
    rows.iter().all(|row| *row == UNTOUCHED)
}

// The rows beyond the interval: ` then kept`, ` then changed`, or nothing where there are none.
fn beyond(rows: &[u64]) {
    if rows.is_empty() {
        return;
    }
    let said: &[u8] = if untouched(rows) {
        b" then kept"
    } else {
        b" then changed"
    };
    io::write_all(1, said);
}

// `; rows` with those of the interval, and the rows beyond it.
fn table(rows: &[u64], interval: usize) {
    io::write_all(1, b"; rows");
    if interval <= rows.len() {
        each(&rows[..interval]);
        beyond(&rows[interval..]);
    }
}

// `; starts ..; checkpoints C; free ..; rows ..`, to the end of the line.
pub fn state(s: &Session, rows: &[u64]) {
    io::write_all(1, b"; starts");
    starts(&s.starts);
    console::list(b"; checkpoints %; free", &[s.marks]);
    free(&s.free, s.interval);
    table(rows, s.interval);
    io::write_all(1, b"\n");
}

// The answer of a refused opening, and whether the table is as it was.
pub fn shut(rows: &[u64], refusal: Refusal) {
    refused(refusal);
    let said: &[u8] = if untouched(rows) {
        b"; rows kept\n"
    } else {
        b"; rows changed\n"
    };
    io::write_all(1, said);
}
