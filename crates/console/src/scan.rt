// Lines and numbers read from text.
ghost use Rattle.std.specs.Fn.{CalledAt};
ghost use Rattle.std.specs.List.{FoldsTo, slice_split};
ghost use Rattle.std.specs.Prelude.{◌≡◌, ◌≢◌, ◌==◌, ℕ, ◌+◌, ◌*◌, ◌<◌, ◌≤◌, min, length, drop, slice_index};
ghost use Rattle.console.specs.Scan.{begin, figures, value_from, value_at, next_at, places, values};

// The first place from `at` on that holds the byte, or the end of the text.
pub fn find(text: &[u8], at: usize, byte: u8) -> usize
    requires { at ≤ length text.now }
    ensures from { at ≤ result }
    ensures within { result ≤ length text.now }
    ensures before { (k : ℕ) → at ≤ k → k < result → slice_index text.now k ≢ byte }
    ensures found { result < length text.now → slice_index text.now result ≡ byte }
{
    for i in at..text.len() {
        if text[i] == byte {
            return i;
        }
    }
    text.len()
}

// Gives each line of a text to f, one after the other.
pub fn each_line<F: FnMut(&[u8])>(text: &[u8], f: F)
    requires { F.IsAlwaysCallable f }
    ensures { (last : F) × FoldsTo (λ p line q. CalledAt F.FnMut p line tt q) f (slice_split (λ b. b == 10) text.now) last }
{
    text.split(|b| *b == b'\n').for_each(f);
}

// A number that was read, and the place after it.
#[derive(Clone, Copy)]
pub struct Scanned {
    pub value: usize,
    pub next: usize,
}

// The first place from `at` on that holds no space.
fn skip(text: &[u8], at: usize) -> usize
    ensures { result ≡ begin text.now at }
{
    // (Of the rest alone: an iterator's `skip` would go through all that stands before it.)
    let rest = &text[at.min(text.len())..];
    at + rest.iter().take_while(|b| **b == b' ').count()
}

// A number with one digit more, or the largest number where that is too large.
fn with_digit(n: usize, digit: u8) -> usize
    requires { digit < 10 }
    ensures { result ≡ min (10 * n + digit) 18446744073709551615 }
{
    n.saturating_mul(10).saturating_add(usize::from(digit))
}

// The digits from a place on as a number, and the place of the first other byte.
#[tactic(auto, using(crate::proofs::Scans::figure, crate::proofs::Scans::no_figure, crate::proofs::Scans::at_end))]
fn take_digits(text: &[u8], at: usize) -> Scanned
    ensures { (result.value ≡ value_from 0 (drop at text.now)) × (result.next ≡ at + figures (drop at text.now)) }
{
    let mut value = 0;
    for i in at..text.len() {
        let b = text[i];
        if !b.is_ascii_digit() {
            return Scanned { value, next: i };
        }
        value = with_digit(value, b - b'0');
    }
    Scanned {
        value,
        next: at.max(text.len()),
    }
}

// The number that begins at a place, behind any spaces, and the place after its last digit. Where no digit stands, the number is 0; one too large becomes the largest.
#[tactic(auto, unfolding(crate::specs::Scan::value_at, crate::specs::Scan::next_at))]
pub fn number_at(text: &[u8], at: usize) -> Scanned
    ensures { (result.value ≡ value_at text.now at) × (result.next ≡ next_at text.now at) }
{
    take_digits(text, skip(text, at))
}

// As many numbers as the list has places, one behind the other from `at` on; the place after the last.
#[tactic(auto, using(crate::proofs::Scans::next_value, crate::proofs::Scans::next_place), unfolding(crate::specs::Scan::places, crate::specs::Scan::values))]
pub fn numbers(text: &[u8], at: usize, list: &mut [usize]) -> usize
    ensures value { result ≡ places (length list.old) text.now at }
    ensures list_after { list.new ≡ values (length list.old) text.now at }
{
    let mut next = at;
    for place in list.iter_mut() {
        let read = number_at(text, next);
        *place = read.value;
        next = read.next;
    }
    next
}
