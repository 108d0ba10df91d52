// Bundles of files (document 02, order 6): the reading of any bytes, a bundle's files by number, and a reader that holds the bundle and the number of the next file. The reader's functions take it apart and
// call the functions on the slice and the number, which do the work.
#![tactic(auto)]

ghost use Rattle.std.specs.Prelude.{◌≡◌, ◌<◌, length};
ghost use Rattle.model.specs.Bundle.{read_bundle, files, count_in, has_file, file_at, begin_of, next_after};
ghost use Rattle.bundle.specs.Answer.{bundled_of};

use loop_access::bytes::{wide, word};
use refusals::Refusal;

// Reads any bytes: the count, then entry by entry, then the end of the last file. The number of the bundle's files.
#[tactic(auto, using(crate::proofs::Reading::entries))]
pub fn read(bundle: &[u8]) -> Result<usize, Refusal>
    ensures { bundled_of result ≡ count_in (read_bundle bundle.now) }
{
    let len = bundle.len();
    if len < 1 {
        return Err(Refusal::Bundle(0));
    }
    let n = wide(bundle[0]);
    if n < 1 || 32 < n {
        return Err(Refusal::Bundle(0));
    }
    let mut begin = 1 + 4 * n;
    for i in 0..n {
        let at = 1 + 4 * i;
        if len < at + 4 || word(bundle, at) != begin {
            return Err(Refusal::Bundle(i + 1));
        }
        begin += word(bundle, at + 2);
        if len < begin {
            return Err(Refusal::Bundle(i + 1));
        }
    }
    if begin != len {
        return Err(Refusal::Bundle(n));
    }
    Ok(n)
}

// The number of files, 0 where the bundle is refused.
fn count(bundle: &[u8]) -> usize
    ensures { (result ≡ length (files bundle.now)) × (result < 33) }
{
    read(bundle).unwrap_or(0)
}

// File i, as part of the bundle; the empty part where the bundle is refused or i is past the last.
#[tactic(auto, using(model::proofs::Bundle::entry_at_lem, model::proofs::Bundle::part_is))]
pub fn file(bundle: &[u8], i: usize) -> &[u8]
    ensures { result.now ≡ file_at bundle.now i }
{
    let n = count(bundle);
    if n <= i {
        return &bundle[..0];
    }
    let at = 1 + 4 * i;
    let begin = word(bundle, at);
    let end = begin + word(bundle, at + 2);
    &bundle[begin..end]
}

// Where file i begins in the bundle; 0 where there is none. (No Option: the model's definition gives 0.)
#[tactic(auto, using(model::proofs::Bundle::entry_at_lem, std::proofs::lemmas::Bool::Decides::nat_tests))]
pub fn offset(bundle: &[u8], i: usize) -> usize
    ensures { result ≡ begin_of bundle.now i }
{
    if i < count(bundle) {
        word(bundle, 1 + 4 * i)
    } else {
        0
    }
}

// Whether there is a file i.
fn has(bundle: &[u8], i: usize) -> bool
    ensures { result ≡ has_file bundle.now i }
{
    i < count(bundle)
}

// The number after i; past the last file it stays.
fn after(bundle: &[u8], i: usize) -> usize
    ensures { result ≡ next_after bundle.now i }
{
    if i < count(bundle) { i + 1 } else { i }
}

// A reader: the bundle, and the number of the next file.
#[derive(Clone, Copy)]
pub struct BundleReader<'a> {
    pub bundle: &'a [u8],
    pub next: usize,
}

// A file that was taken, and the reader for the one after it.
#[derive(Clone, Copy)]
pub struct Taken<'a> {
    pub file: &'a [u8],
    pub rest: BundleReader<'a>,
}

// The reader at a bundle's first file.
pub fn open<'a>(bundle: &'a [u8]) -> BundleReader<'a>
    ensures { (result.bundle ≡ bundle.entry) × (result.next ≡ 0) }
{
    BundleReader { bundle, next: 0 }
}

// Whether there is a next file. Past the last there is none.
pub fn more<'a>(r: BundleReader<'a>) -> bool
    ensures { result ≡ has_file r.entry.bundle.now r.entry.next }
{
    has(r.bundle, r.next)
}

// The next file, as part of the bundle, and the reader after it; past the last file the empty part and the same reader.
pub fn take<'a>(r: BundleReader<'a>) -> Taken<'a>
    ensures { (result.file.now ≡ file_at r.entry.bundle.now r.entry.next) × (result.rest.bundle ≡ r.entry.bundle) × (result.rest.next ≡ next_after r.entry.bundle.now r.entry.next) }
{
    let bundle = r.bundle;
    let at = r.next;
    let file = file(bundle, at);
    let next = after(bundle, at);
    Taken {
        file,
        rest: BundleReader { bundle, next },
    }
}
