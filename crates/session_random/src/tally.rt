// What is counted: how many calls there were, how many agree, and how many there are of each sort.
use crate::book::{Refusal, Reply};
use crate::calls::Turn;
use session::Call;
use trial::tally::more;

// What is counted, in the order of the line that prints it: the lists, the openings and calls, and those that agree; the calls by sort, of which a forced one displaced none, one or several operations; those
// that were refused, by 12 to 19; and anything else.
#[derive(Clone, Copy)]
enum Count {
    Lists,
    Calls,
    Agree,
    Placed,
    ForcedAlone,
    ForcedOne,
    ForcedSeveral,
    Removed,
    Checkpoint,
    Released,
    RolledBack,
    NoOperation,
    AlreadyPlaced,
    NotPlaced,
    BeyondHorizon,
    Dependence,
    Conflict,
    AllOpen,
    NotOpen,
    Other,
}

// The generator's state, and the counts.
#[derive(Clone, Copy)]
pub struct Tally {
    pub seed: usize,
    counts: [usize; 20],
}

// A tally of nothing.
pub fn nothing(seed: usize) -> Tally {
    Tally {
        seed,
        counts: [0; 20],
    }
}

// The sort of a forced operation, by the mask of those that were displaced.
fn forced(mask: usize) -> Count {
    match mask.count_ones() {
        0 => Count::ForcedAlone,
        1 => Count::ForcedOne,
        _ => Count::ForcedSeveral,
    }
}

// The sort of a refusal.
fn refused(refusal: Refusal) -> Count {
    match refusal {
        Refusal::NoOperation(_) => Count::NoOperation,
        Refusal::AlreadyPlaced(_) => Count::AlreadyPlaced,
        Refusal::NotPlaced(_) => Count::NotPlaced,
        Refusal::BeyondHorizon(_) => Count::BeyondHorizon,
        Refusal::Dependence(_) => Count::Dependence,
        Refusal::Conflict(_) => Count::Conflict,
        Refusal::AllOpen => Count::AllOpen,
        Refusal::NotOpen => Count::NotOpen,
        Refusal::Other => Count::Other,
    }
}

// The sort of a call with this answer.
fn sort(call: Call, answer: Result<Reply, Refusal>) -> Count {
    match (call, answer) {
        (Call::Place { .. }, Ok(Reply::Done)) => Count::Placed,
        (Call::Remove { .. }, Ok(Reply::Done)) => Count::Removed,
        (Call::Release, Ok(Reply::Done)) => Count::Released,
        (Call::Rollback { .. }, Ok(Reply::Done)) => Count::RolledBack,
        (_, Ok(Reply::Done)) => Count::Other,
        (_, Ok(Reply::Displaced(mask))) => forced(mask),
        (_, Ok(Reply::Numbered(_))) => Count::Checkpoint,
        (_, Err(refusal)) => refused(refusal),
    }
}

// The counts with an opening or a call, and a line where it does not agree.
fn counted(counts: [usize; 20], agrees: bool) -> [usize; 20] {
    let called = more(counts, Count::Calls as usize);
    if agrees {
        return more(called, Count::Agree as usize);
    }
    console::list(b"list %, call %: differ\n", &counts);
    called
}

// The tally with a list that was drawn, and the state behind it.
pub fn with_drawn(t: Tally, seed: usize) -> Tally {
    Tally {
        seed,
        counts: more(t.counts, Count::Lists as usize),
    }
}

// The tally with an opening.
pub fn with_opening(t: Tally, agrees: bool) -> Tally {
    Tally {
        seed: t.seed,
        counts: counted(t.counts, agrees),
    }
}

// The tally with a call, and the state behind it.
pub fn with_call(t: Tally, turn: Turn, answer: Result<Reply, Refusal>, agrees: bool) -> Tally {
    let sorted = more(t.counts, sort(turn.call, answer) as usize);
    Tally {
        seed: turn.seed,
        counts: counted(sorted, agrees),
    }
}

// `L lists, C calls, A agree: ..`, for the lists so far.
pub fn print(t: Tally) {
    console::list(
        b"% lists, % calls, % agree: placed %, forced with none displaced %, with one %, with several %, removed %, checkpoints %, released %, rolled back %, refused by 12:% 13:% 14:% 15:% 16:% 17:% 18:% 19:%, other %\n",
        &t.counts,
    );
}

// A last line for all lists.
pub fn print_all(t: Tally) {
    let [lists, calls, agree, ..] = t.counts;
    console::list(b"% of % calls agree in % lists\n", &[agree, calls, lists]);
}
