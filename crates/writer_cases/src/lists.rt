// Lists of numbers, read from a line of the table.

// A list that is read, and the place in the line behind it.
#[derive(Clone, Copy)]
pub struct List {
    pub count: usize,
    pub next: usize,
}

// A number that is not below 0, up to 2147483647.
fn plus(v: usize) -> i32 {
    (v % 2147483648) as i32
}

// A number below 0, from -1 down to -2147483648: `!` takes 0 to -1, and so on.
fn minus(v: usize) -> i32 {
    !plus(v % 2147483648 + 2147483647)
}

// The number at a place of a line.
fn signed_at(line: &[u8], at: usize) -> i32 {
    if at < line.len() && line[at] == b'-' {
        minus(console::number_at(line, at + 1).value)
    } else {
        plus(console::number_at(line, at).value)
    }
}

// Puts a number behind the first `count` of a list, where there is room; how many it has then.
fn more(list: &mut [i32; 1032], count: usize, z: i32) -> usize {
    if count < 1032 {
        list[count] = z;
        count + 1
    } else {
        count
    }
}

// The numbers from `from` to `count` again, until they stand there so many times or the list is full; how many numbers it has then.
fn repeat(list: &mut [i32; 1032], from: usize, count: usize, times: usize) -> usize {
    if count <= from {
        return count;
    }
    let width = count - from;
    let end = from.saturating_add(width.saturating_mul(times)).min(1032);
    for n in count..end {
        list[n] = list[n - width];
    }
    count.max(end)
}

// Reads the list that begins at a place of the line, up to its `/`. An x repeats what stands there since `from`.
pub fn read(line: &[u8], at: usize, list: &mut [i32; 1032]) -> List {
    let mut count = 0;
    let mut from = 0;
    let mut next = at;
    while next < line.len() {
        let word = next;
        next = console::find(line, word, b' ') + 1;
        match line[word] {
            b'/' => return List { count, next },
            b'x' => {
                count = repeat(list, from, count, console::number_at(line, word + 1).value);
                from = count;
            }
            _ => count = more(list, count, signed_at(line, word)),
        }
    }
    List { count, next }
}

// The first numbers of a list; all where there are fewer.
pub fn first(list: &[i32; 1032], n: usize) -> &[i32] {
    &list[..n.min(1032)]
}
