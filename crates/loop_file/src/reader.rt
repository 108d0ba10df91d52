// The parts of the reader, one for each part of the file. Internal: each asks that the bytes it reads are there, and answers
// the first refusal that its part of document 01's table gives, else, where the next part needs one, a number.
// Document 01 names `let .. else` for the reader, so a refusal is passed on by a function; in a loop, `?` does.
ghost use Rattle.std.specs.Prelude.{◌≡◌, ◌++◌, ◌+◌, ◌*◌, ◌<◌, ◌≤◌, length};
ghost use Rattle.std.proofs.Math.Option.{none};
ghost use Rattle.model.specs.Refusals.{first_refusal, settle};
ghost use Rattle.model.specs.File.{word_at, use_width, op_count, first_use, length_checks, head_checks, stands_at, entry_checks, contents_checks, op_use_checks, dep_checks_at};
ghost use Rattle.refusals.specs.Told.{refusal_of};
ghost use Rattle.loop_file.specs.Read.{part_of, four_of, section_as, ops_table, uses_table, deps_table, body_checks};

use loop_access::bytes::{signed, wide, word};
use loop_access::{LONGEST, USE_WIDTH};
use refusals::{Refusal, passed_on};

// Refusals 1 and 2: the file's length, the version, the number of entries.
#[tactic(auto, using(std::proofs::lemmas::Bool::Decides::nat_tests), unfolding(model::specs::Refusals::first_refusal, model::specs::File::length_checks, model::specs::File::head_checks))]
pub fn head(file: &[u8]) -> Result<(), Refusal>
    ensures { refusal_of result ≡ first_refusal (length_checks file.now ++ head_checks file.now) }
{
    let n = file.len();
    if n < 26 || LONGEST < n {
        return Err(Refusal::FileLength(n.min(LONGEST + 1)));
    }
    if file[0] != 1 {
        return Err(Refusal::Head(0));
    }
    if file[1] != 3 {
        return Err(Refusal::Head(1));
    }
    Ok(())
}

// Whether the tag stands at `at`.
#[tactic(auto, using(std::proofs::lemmas::Bool::Decides::nat_tests), unfolding(model::specs::File::stands_at))]
pub fn tag_is(file: &[u8], at: usize, tag: &[u8; 4]) -> bool
    requires { at + 4 ≤ length file.now }
    ensures { result ≡ stands_at file.now at (four_of tag.now) }
{
    file[at] == tag[0] && file[at + 1] == tag[1] && file[at + 2] == tag[2] && file[at + 3] == tag[3]
}

// Refusal 3, one entry: the section's tag, its offset, which has to be `start`, and its length, `least` to `most` records of `width` bytes. The number answered is that length.
#[tactic(auto, using(std::proofs::lemmas::Bool::Decides::nat_tests), unfolding(model::specs::Refusals::first_refusal, model::specs::File::entry_checks))]
pub fn entry(
    file: &[u8],
    at: usize,
    tag: &[u8; 4],
    start: usize,
    width: usize,
    least: usize,
    most: usize,
) -> Result<usize, Refusal>
    requires { (at + 8 ≤ length file.now) × (1 ≤ width) }
    ensures { part_of result ≡ settle (entry_checks file.now (section_as at (four_of tag.now) width least most) start) (word_at file.now (at + 6)) }
{
    let n = word(file, at + 6);
    if !tag_is(file, at, tag)
        || word(file, at + 4) != start
        || n % width != 0
        || n / width < least
        || most < n / width
    {
        return Err(Refusal::Section(at));
    }
    Ok(n)
}

// Refusal 3: the three entries, and that the last body ends where the file does.
pub fn contents(file: &[u8]) -> Result<(), Refusal>
    requires { 26 ≤ length file.now }
    ensures { refusal_of result ≡ first_refusal (contents_checks file.now) }
{
    let first = entry(file, 2, b"OPER", 26, 2, 1, 64);
    let Ok(oper) = first else {
        return passed_on(first);
    };
    let second = entry(file, 10, b"USES", 26 + oper, USE_WIDTH, 0, 256);
    let Ok(uses) = second else {
        return passed_on(second);
    };
    let third = entry(file, 18, b"DEPS", 26 + oper + uses, 4, 0, 256);
    let Ok(deps) = third else {
        return passed_on(third);
    };
    if 26 + oper + uses + deps != file.len() {
        return Err(Refusal::Section(18));
    }
    Ok(())
}

// Refusal 4: latency and number of uses of each of n operations. The number answered is that of all uses.
#[tactic(auto, using(crate::proofs::Tables::turns), unfolding(model::specs::Refusals::first_refusal, model::specs::File::first_use, model::specs::File::op_checks))]
pub fn ops(file: &[u8], n: usize) -> Result<usize, Refusal>
    requires { (26 + 2 * n ≤ length file.now) × (n ≤ 64) }
    ensures { part_of result ≡ settle (ops_table file.now n) (first_use file.now n) }
{
    let mut sum = 0;
    for o in 0..n {
        let at = 26 + 2 * o;
        if 64 < file[at] {
            return Err(Refusal::Operation(at));
        }
        let k = wide(file[at + 1]);
        if 4 < k {
            return Err(Refusal::Operation(at + 1));
        }
        sum += k;
    }
    Ok(sum)
}

// Refusal 5, one operation: its n uses, from `first` on, each with a slot above the one before and a duration in range.
#[tactic(auto, using(crate::proofs::Tables::turns), unfolding(model::specs::Refusals::first_refusal, model::specs::File::op_use_checks, model::specs::File::use_checks))]
pub fn op_uses(file: &[u8], first: usize, n: usize) -> Result<(), Refusal>
    requires { (first + use_width * n ≤ length file.now) × (n < 256) }
    ensures { refusal_of result ≡ first_refusal (op_use_checks file.now first n) }
{
    let mut below = 0;
    for j in 0..n {
        let at = first + USE_WIDTH * j;
        let slot = wide(file[at]);
        if slot <= below || 24 < slot {
            return Err(Refusal::Use(at));
        }
        let duration = wide(file[at + 1]);
        if duration < 1 || 16 < duration {
            return Err(Refusal::Use(at + 1));
        }
        below = slot;
    }
    Ok(())
}

// Refusal 5: the uses of n operations, in a body that begins at `start`.
#[tactic(auto, using(crate::proofs::Tables::turns), unfolding(model::specs::File::first_use))]
pub fn uses(file: &[u8], start: usize, n: usize) -> Result<(), Refusal>
    requires { (26 + 2 * n ≤ length file.now) × (n ≤ 64) × (start + use_width * first_use file.now n ≤ length file.now) }
    ensures { refusal_of result ≡ first_refusal (uses_table file.now start n) }
{
    let mut first = start;
    for o in 0..n {
        let k = wide(file[26 + 2 * o + 1]);
        op_uses(file, first, k)?;
        first += USE_WIDTH * k;
    }
    Ok(())
}

// Refusal 6, one dependence between n operations, whose record stands at `at`.
#[tactic(auto, using(std::proofs::lemmas::Bool::Decides::nat_tests), unfolding(model::specs::Refusals::first_refusal, model::specs::File::dep_checks))]
pub fn dep(file: &[u8], at: usize, n: usize) -> Result<(), Refusal>
    requires { at + 4 ≤ length file.now }
    ensures { refusal_of result ≡ first_refusal (dep_checks_at file.now n at) }
{
    if n <= wide(file[at]) {
        return Err(Refusal::Dependence(at));
    }
    if n <= wide(file[at + 1]) {
        return Err(Refusal::Dependence(at + 1));
    }
    let delay = signed(file[at + 2]);
    if delay < -64 || 64 < delay {
        return Err(Refusal::Dependence(at + 2));
    }
    if 15 < file[at + 3] {
        return Err(Refusal::Dependence(at + 3));
    }
    Ok(())
}

// Refusal 6: m dependences between n operations, in a body that begins at `start`.
#[tactic(auto, using(crate::proofs::Tables::turns))]
pub fn deps(file: &[u8], n: usize, start: usize, m: usize) -> Result<(), Refusal>
    requires { (start + 4 * m ≤ length file.now) × (m ≤ 256) }
    ensures { refusal_of result ≡ first_refusal (deps_table file.now n start m) }
{
    for e in 0..m {
        dep(file, start + 4 * e, n)?;
    }
    Ok(())
}

// Refusals 4, 5 and 6: the three bodies of a file whose contents are right. The number answered is that of all uses.
#[tactic(auto, using(model::proofs::File::shape))]
pub fn bodies(file: &[u8]) -> Result<usize, Refusal>
    requires { (26 ≤ length file.now) × (first_refusal (contents_checks file.now) ≡ none) }
    ensures { part_of result ≡ settle (body_checks file.now) (first_use file.now (op_count file.now)) }
{
    let oper = word(file, 8);
    let uses_length = word(file, 16);
    let n = oper / 2;
    let by_ops = ops(file, n);
    let Ok(total) = by_ops else {
        return by_ops;
    };
    let start = 26 + oper;
    if uses_length != USE_WIDTH * total {
        return Err(Refusal::Use(start));
    }
    let by_uses = uses(file, start, n);
    let Ok(()) = by_uses else {
        return passed_on(by_uses);
    };
    let by_deps = deps(file, n, start + uses_length, word(file, 24) / 4);
    let Ok(()) = by_deps else {
        return passed_on(by_deps);
    };
    Ok(total)
}
