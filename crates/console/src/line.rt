// A line of the output, put together in lent memory before it is written.
ghost use Rattle.std.specs.Prelude.{◌≡◌};
ghost use Rattle.console.specs.Line.{written, after, Numbered};

// Puts bytes at a place of the line, as far as there is room; the place after them.
#[tactic(auto, unfolding(crate::specs::Line::after, crate::specs::Line::written))]
pub fn text(line: &mut [u8], at: usize, bytes: &[u8]) -> usize
    ensures value { result ≡ after line.old at bytes.now }
    ensures line_after { line.new ≡ written line.old at bytes.now }
{
    let n = line.len().saturating_sub(at).min(bytes.len());
    if n > 0 {
        line[at..at + n].copy_from_slice(&bytes[..n]);
    }
    at + n
}

// Puts bytes, and the decimal digits of n behind them; the place after those.
pub fn number(line: &mut [u8], at: usize, bytes: &[u8], n: usize) -> usize
    ensures { Numbered line.old at bytes.now n line.new result }
{
    let mut digits = [0u8; 20];
    let k = io::decimal(n as u64, &mut digits);
    let next = text(line, at, bytes);
    text(line, next, &digits[..k])
}

// Writes the first n bytes of a line to standard output, or all of it where it has fewer.
pub fn print(line: &[u8], n: usize) {
    io::write_all(1, &line[..n.min(line.len())]);
}

// Writes what stands behind the byte at a place of a text to standard output: in a line of a table, the name behind its numbers.
pub fn rest(text: &[u8], at: usize) {
    if at < text.len() {
        io::write_all(1, &text[at + 1..]);
    }
}

// Puts a template into the line, with the next number in place of each `%`, and 0 where the list is over; the place after it.
fn fill(line: &mut [u8], template: &[u8], numbers: &[usize]) -> usize {
    let mut at = 0;
    let mut left = numbers.iter();
    for b in template {
        at = match *b {
            b'%' => number(line, at, b"", left.next().copied().unwrap_or(0)),
            other => text(line, at, &[other]),
        };
    }
    at
}

// Writes a template to standard output, up to 1,024 bytes, with the next number of the list in place of each `%`, and 0 where the list is over.
pub fn list(template: &[u8], numbers: &[usize]) {
    let mut line = [0u8; 1024];
    let n = fill(&mut line, template, numbers);
    print(&line, n);
}
