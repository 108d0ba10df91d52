// What the entry points share of refusals: the refusals themselves, and the checks that several entry points make. Internal.
#![tactic(auto)]

ghost use Rattle.std.specs.Prelude.{◌≡◌, [], ◌∷◌, IsErr, IsErrAnd, IfErr};
ghost use Rattle.model.specs.Refusals.{first_refusal};
ghost use Rattle.model.specs.Refusals as model;
ghost use Rattle.refusals.specs.Told.{told, refusal_of, AskedIs};

// A refusal by its number, which stands above each, with its detail where it has one (docs/FORMAT.md has the table). 9 never comes; 10 and 11 end a search that was made (`search::Unsolved`); 21 is a bundle's, and 254 and
// 255 are those of `mw_session` alone.
#[derive(Clone, Copy, Debug, PartialEq, Eq)]
pub enum Refusal {
    // 1: the file is too short or too long; its length, or one more than the longest.
    FileLength(usize),
    // 2: another version, or another number of sections; the byte's offset.
    Head(usize),
    // 3: an entry's tag, offset or length; the entry's offset.
    Section(usize),
    // 4: a latency or a number of uses; the byte's offset, of lists the operation.
    Operation(usize),
    // 5: a slot, a duration, or the number of uses; the byte's offset, of lists the use.
    Use(usize),
    // 6: an operation number, a delay or a distance; the byte's offset, of lists the dependence.
    Dependence(usize),
    // 7: a number of the request is out of range; which.
    Request(usize),
    // 8: dependences lead back to an operation within one iteration, with a delay.
    Circle,
    // 12: there is no such operation; its number.
    NoOperation(usize),
    // 13: the operation is placed; its number.
    Placed(usize),
    // 14: the operation is not placed; its number.
    NotPlaced(usize),
    // 15: a start is too late; the operation's number.
    Start(usize),
    // 16: the start breaks a dependence; its number.
    Broken(usize),
    // 17: the operation conflicts; the number of the place.
    Conflict(usize),
    // 18: all checkpoints are open.
    Checkpoints,
    // 19: there is no such checkpoint.
    NoCheckpoint,
    // 20: lent memory is too short; its length.
    Lent(usize),
    // 21: the bundle's count (0), or the number of the first wrong entry, counted from 1.
    Bundle(usize),
    // 254: the list of answers is too short; its length.
    Replies(usize),
    // 255: a call has no kind that there is, or numbers are left over; the call's number.
    Call(usize),
}

impl Refusal {
    // Its number in document 01's table.
    pub fn number(self) -> usize
        ensures { result ≡ (told self).number }
    {
        match self {
            Refusal::FileLength(_) => 1,
            Refusal::Head(_) => 2,
            Refusal::Section(_) => 3,
            Refusal::Operation(_) => 4,
            Refusal::Use(_) => 5,
            Refusal::Dependence(_) => 6,
            Refusal::Request(_) => 7,
            Refusal::Circle => 8,
            Refusal::NoOperation(_) => 12,
            Refusal::Placed(_) => 13,
            Refusal::NotPlaced(_) => 14,
            Refusal::Start(_) => 15,
            Refusal::Broken(_) => 16,
            Refusal::Conflict(_) => 17,
            Refusal::Checkpoints => 18,
            Refusal::NoCheckpoint => 19,
            Refusal::Lent(_) => 20,
            Refusal::Bundle(_) => 21,
            Refusal::Replies(_) => 254,
            Refusal::Call(_) => 255,
        }
    }

    // Its detail, 0 where it has none.
    pub fn detail(self) -> usize
        ensures { result ≡ (told self).detail }
    {
        match self {
            Refusal::FileLength(d)
            | Refusal::Head(d)
            | Refusal::Section(d)
            | Refusal::Operation(d)
            | Refusal::Use(d)
            | Refusal::Dependence(d)
            | Refusal::Request(d)
            | Refusal::NoOperation(d)
            | Refusal::Placed(d)
            | Refusal::NotPlaced(d)
            | Refusal::Start(d)
            | Refusal::Broken(d)
            | Refusal::Conflict(d)
            | Refusal::Lent(d)
            | Refusal::Bundle(d)
            | Refusal::Replies(d)
            | Refusal::Call(d) => d,
            Refusal::Circle | Refusal::Checkpoints | Refusal::NoCheckpoint => 0,
        }
    }
}

// A refusal as the answer of a function above, whose answers and errors may be others: what an entry point returns where `let .. else` finds no answer.
pub fn passed_on<A: Drop, B, E: From<Refusal>>(refused: Result<A, Refusal>) -> Result<B, E>
    requires { IsErr refused }
    ensures { IsErrAnd result (λ e. IfErr refused (λ r. E.from_gives r e)) }
{
    match refused {
        Ok(_) => unreachable!(),
        Err(refusal) => Err(E::from(refusal)),
    }
}

// The number of a field is one of 1 .. most.
pub fn range(field: usize, most: usize, x: usize) -> Result<(), Refusal>
    ensures { refusal_of result ≡ first_refusal (model.range field most x ∷ []) }
{
    if x < 1 || most < x {
        return Err(Refusal::Request(field));
    }
    Ok(())
}

// A lent list or table has the numbers that are needed.
pub fn lent(needs: usize, has: usize) -> Result<(), Refusal>
    ensures { refusal_of result ≡ first_refusal (model.lent needs has ∷ []) }
{
    if has < needs {
        return Err(Refusal::Lent(has));
    }
    Ok(())
}

// The first refusal of the request's numbers, then of the lengths of the list and the table, for a loop of n operations.
pub fn request(
    n: usize,
    cap: usize,
    horizon: usize,
    budget: usize,
    list: usize,
    rows: usize,
) -> Result<(), Refusal>
    ensures { AskedIs n cap horizon budget list rows result }
{
    range(1, 4096, cap)?;
    range(2, 4096, horizon)?;
    range(3, 1000000, budget)?;
    lent(n, list)?;
    lent(4096, rows)
}
