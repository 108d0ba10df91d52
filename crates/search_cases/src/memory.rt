// What the search leaves in lent memory. Before a call each place of the list and each row of the table holds the largest number, which no start and no cleared row is.

// Prints the places that changed, each with `!` in its stead where one before it did not; how many did not.
fn places(list: &[u16]) -> usize {
    let mut kept = 0;
    for start in list {
        if *start == u16::MAX {
            kept += 1;
        } else if kept == 0 {
            console::list(b" %", &[*start as usize]);
        } else {
            io::write_all(1, b" !");
        }
    }
    kept
}

// `; list kept`, `; list S S ..`, or `; list S S .. then kept`, with the places that changed.
pub fn show_list(list: &[u16]) {
    io::write_all(1, b"; list");
    let kept = places(list);
    if kept == list.len() {
        io::write_all(1, b" kept");
    } else if kept > 0 {
        io::write_all(1, b" then kept");
    }
}

// How many rows are cleared, from the first on, where all others are as they were.
fn cleared(rows: &[u64]) -> Option<usize> {
    let n = rows.iter().take_while(|row| **row == 0).count();
    let others_kept = rows.iter().skip(n).all(|row| *row == u64::MAX);
    others_kept.then_some(n)
}

// `; rows kept`, `; rows cleared` where the first 4,096 and no others are, or `; rows changed`.
pub fn show_rows(rows: &[u64]) {
    let said: &[u8] = match cleared(rows) {
        Some(0) => b"; rows kept",
        Some(4096) => b"; rows cleared",
        _ => b"; rows changed",
    };
    io::write_all(1, said);
}
