// What lists of numbers are refused for: 3 to 6, in document 02's order. Internal: each but the last asks that the numbers it reads are there.
ghost use Rattle.std.specs.Prelude.{◌≡◌, ◌+◌, ◌*◌, ◌<◌, ◌≤◌, length};
ghost use mathlib.Core.List.{[], flat_map};
ghost use Rattle.std.proofs.Math.Option.{none};
ghost use Rattle.model.specs.Lists.{up_from};
ghost use Rattle.model.specs.Integers.{plus};
ghost use Rattle.model.specs.Refusals.{first_refusal};
ghost use Rattle.model.specs.File.{use_width, size_checks};
ghost use Rattle.model.specs.Writer.{field_at, first_given, uses_given, op_given_checks, use_given_checks, op_uses_given_checks, dep_given_checks, given_checks};
ghost use Rattle.loop_file.specs.Read.{section_as};
ghost use Rattle.refusals.specs.Told.{refusal_of};
ghost use Rattle.loop_writer.specs.Answer.{fields_by};
ghost use Rattle.loop_writer.specs.Ranges.{beyond};

use loop_access::USE_WIDTH;
use refusals::Refusal;

// Number i of a list, and 0 where it is below 0.
fn natural(list: &[i32], i: usize) -> usize
    requires { i < length list.now }
    ensures { result ≡ plus (field_at list.now i) }
{
    usize::try_from(list[i]).unwrap_or(0)
}

// Whether number i of a list is not one of low .. high.
fn outside(list: &[i32], i: usize, low: i32, high: i32) -> bool
    requires { i < length list.now }
    ensures { result ≡ beyond low high (field_at list.now i) }
{
    !(low..=high).contains(&list[i])
}

// Refusal 3: a list of so many numbers has whole records, as many as its section may have.
#[tactic(auto, using(std::proofs::lemmas::Bool::Decides::nat_tests), unfolding(model::specs::Refusals::first_refusal))]
fn size(
    numbers: usize,
    entry: usize,
    width: usize,
    least: usize,
    most: usize,
) -> Result<(), Refusal>
    requires { 1 ≤ width }
    ensures { refusal_of result ≡ first_refusal (size_checks (section_as entry [] width least most) numbers) }
{
    let records = numbers / width;
    if numbers % width != 0 || records < least || most < records {
        return Err(Refusal::Section(entry));
    }
    Ok(())
}

// Refusal 4: latency and number of uses of operation o.
#[tactic(auto, using(crate::proofs::Ranges::up_to), unfolding(model::specs::File::op_checks, model::specs::Refusals::first_refusal))]
fn op(ops: &[i32], o: usize) -> Result<(), Refusal>
    requires { 2 * o + 1 < length ops.now }
    ensures { refusal_of result ≡ first_refusal (op_given_checks ops.now o) }
{
    let at = 2 * o;
    if outside(ops, at, 0, 64) || outside(ops, at + 1, 0, 4) {
        return Err(Refusal::Operation(o));
    }
    Ok(())
}

// Refusal 4: n operations.
#[tactic(auto, using(crate::proofs::Rows::rows))]
fn op_list(ops: &[i32], n: usize) -> Result<(), Refusal>
    requires { 2 * n ≤ length ops.now }
    ensures { refusal_of result ≡ first_refusal (flat_map (op_given_checks ops.now) (up_from 0 n)) }
{
    for o in 0..n {
        op(ops, o)?;
    }
    Ok(())
}

// The number of uses of n operations that are right.
#[tactic(auto, using(crate::proofs::Rows::counting))]
fn all_uses(ops: &[i32], n: usize) -> usize
    requires { (2 * n ≤ length ops.now) × (n ≤ 64) × (first_refusal (flat_map (op_given_checks ops.now) (up_from 0 n)) ≡ none) }
    ensures { (result ≡ first_given ops.now n) × (result ≤ 4 * n) }
{
    let mut sum = 0;
    for o in 0..n {
        sum += natural(ops, 2 * o + 1);
    }
    sum
}

// Refusal 5: slot and duration of use u of the list; the slot has to be above `below`.
#[tactic(auto, using(crate::proofs::Ranges::use_tests), unfolding(model::specs::File::use_checks, model::specs::Refusals::first_refusal))]
fn one_use(uses: &[i32], below: usize, u: usize) -> Result<(), Refusal>
    requires { (use_width * u + 1 < length uses.now) × (below ≤ 24) }
    ensures { refusal_of result ≡ first_refusal (use_given_checks uses.now below u) }
{
    let at = USE_WIDTH * u;
    if outside(uses, at, below as i32 + 1, 24) || outside(uses, at + 1, 1, 16) {
        return Err(Refusal::Use(u));
    }
    Ok(())
}

// Refusal 5, one operation: its n uses, from use `first` of the list on, each with a slot above the one before.
#[tactic(auto, using(crate::proofs::Rows::use_rows), unfolding(model::specs::Writer::op_uses_given_checks))]
fn op_uses(uses: &[i32], first: usize, n: usize) -> Result<(), Refusal>
    requires { use_width * (first + n) ≤ length uses.now }
    ensures { refusal_of result ≡ first_refusal (op_uses_given_checks uses.now first n) }
{
    let mut below = 0;
    for j in 0..n {
        let u = first + j;
        one_use(uses, below, u)?;
        below = natural(uses, USE_WIDTH * u);
    }
    Ok(())
}

// Refusal 5: the uses of n operations.
#[tactic(auto, using(crate::proofs::Rows::op_rows))]
fn use_list(ops: &[i32], uses: &[i32], n: usize) -> Result<(), Refusal>
    requires { (2 * n ≤ length ops.now) × (use_width * first_given ops.now n ≤ length uses.now) }
    ensures { refusal_of result ≡ first_refusal (flat_map (λ o. op_uses_given_checks uses.now (first_given ops.now o) (uses_given ops.now o)) (up_from 0 n)) }
{
    let mut first = 0;
    for o in 0..n {
        let k = natural(ops, 2 * o + 1);
        op_uses(uses, first, k)?;
        first += k;
    }
    Ok(())
}

// Refusal 6: dependence e of the list, between n operations.
#[tactic(auto, using(crate::proofs::Ranges::dep_tests), unfolding(model::specs::File::dep_checks, model::specs::Refusals::first_refusal))]
fn dep(deps: &[i32], n: usize, e: usize) -> Result<(), Refusal>
    requires { (4 * e + 3 < length deps.now) × (1 ≤ n) × (n ≤ 64) }
    ensures { refusal_of result ≡ first_refusal (dep_given_checks deps.now n e) }
{
    let at = 4 * e;
    let last = n as i32 - 1;
    if outside(deps, at, 0, last)
        || outside(deps, at + 1, 0, last)
        || outside(deps, at + 2, -64, 64)
        || outside(deps, at + 3, 0, 15)
    {
        return Err(Refusal::Dependence(e));
    }
    Ok(())
}

// Refusal 6: m dependences between n operations. (Like `op_list` but for the record: one function with a closure would have to spell out what that asks and answers.)
#[tactic(auto, using(crate::proofs::Rows::rows))]
fn dep_list(deps: &[i32], n: usize, m: usize) -> Result<(), Refusal>
    requires { (4 * m ≤ length deps.now) × (1 ≤ n) × (n ≤ 64) }
    ensures { refusal_of result ≡ first_refusal (flat_map (dep_given_checks deps.now n) (up_from 0 m)) }
{
    for e in 0..m {
        dep(deps, n, e)?;
    }
    Ok(())
}

// Refusals 3 to 6: the number of operations and of dependences, the operations, the number of uses, the uses, the dependences.
pub fn given(ops: &[i32], uses: &[i32], deps: &[i32]) -> Result<(), Refusal>
    ensures { refusal_of result ≡ first_refusal (given_checks (fields_by ops.now uses.now deps.now)) }
{
    size(ops.len(), 2, 2, 1, 64)?;
    size(deps.len(), 18, 4, 0, 256)?;
    let n = ops.len() / 2;
    op_list(ops, n)?;
    if uses.len() != USE_WIDTH * all_uses(ops, n) {
        return Err(Refusal::Use(uses.len() / USE_WIDTH));
    }
    use_list(ops, uses, n)?;
    dep_list(deps, n, deps.len() / 4)
}
