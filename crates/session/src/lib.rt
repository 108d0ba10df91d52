// The session (document 01): a modulo reservation table in which operations are placed, forced, removed, checkpointed and rolled back. The caller keeps the session and the table of rows, and lends both to each
// call. The work is done in the crates `board` and `free_rows`, on slices; here it is joined to the session's fields.
#![tactic(auto)]

mod checks;
mod store;

ghost use Rattle.std.specs.Prelude.{◌≡◌};
ghost use Rattle.model.specs.Session as model;
ghost use Rattle.session.specs.View.{Valid, Stepped, Opened};
ghost use Rattle.session.specs.Call.{call_is};

pub use board::Reply;
use board::moves;
use loop_access::LONGEST;
pub use refusals::Refusal;
use refusals::passed_on;
use reservation::NOT_PLACED;
use reservation::clear::clear_rows;

// What a checkpoint keeps (document 01: a mark): the starts, and the numbers of free rows.
#[derive(Clone, Copy)]
pub struct Kept {
    pub starts: [u16; 64],
    pub free: [u16; 24],
}

// What a session holds: a copy of its file and how long that is; the interval and the horizon; a start for each operation, 65,535 where it is not placed (document 01: seats); for each slot,
// 1 to 24, how many rows of the table have it free (document 02, order 4); how many checkpoints are open (document 01: marks), and what each keeps.
#[derive(Clone, Copy)]
pub struct Session {
    pub file: [u8; LONGEST],
    pub length: usize,
    pub interval: usize,
    pub horizon: usize,
    pub starts: [u16; 64],
    pub free: [u16; 24],
    pub marks: usize,
    pub saved: [Kept; 16],
}

// Opens a session for any file, interval, horizon and table (document 01: opening): clears the first rows, one for each cycle of the interval. (Document 01 names `let .. else` for the refusals of
// entry points.)
#[tactic(auto, using(crate::proofs::Openings::fits))]
pub fn open(
    file: &[u8],
    interval: usize,
    horizon: usize,
    rows: &mut [u64],
) -> Result<Session, Refusal>
    ensures { Opened file.now interval horizon rows.old result rows.new }
{
    let answer = checks::openable(file, interval, horizon, rows.len());
    let Ok(()) = answer else {
        return passed_on(answer);
    };
    let mut copy = [0u8; LONGEST];
    store::copy_file(file, &mut copy);
    clear_rows(rows, interval);
    let blank = Kept {
        starts: [NOT_PLACED; 64],
        free: [65535u16; 24],
    };
    Ok(Session {
        file: copy,
        length: file.len(),
        interval,
        horizon,
        starts: [NOT_PLACED; 64],
        free: [interval as u16; 24],
        marks: 0,
        saved: [blank; 16],
    })
}

// A call of a session.
#[derive(Clone, Copy, Debug, PartialEq, Eq)]
pub enum Call {
    Place { op: usize, start: usize },
    Force { op: usize, start: usize },
    Remove { op: usize },
    Checkpoint,
    Release,
    Rollback { checkpoint: usize },
}

impl Session {
    // Places an operation at a start where it fits (document 01: seat).
    pub fn place(&mut self, rows: &mut [u64], op: usize, start: usize) -> Result<Reply, Refusal>
        requires { Valid self.old rows.old }
        ensures { Stepped (model.place op start) self.old rows.old self.new rows.new result }
    {
        free_rows::place(
            &self.file[..self.length],
            self.interval,
            self.horizon,
            op,
            start,
            &mut self.starts,
            rows,
            &mut self.free,
        )
    }

    // Places an operation and removes first what is in its way.
    pub fn force(&mut self, rows: &mut [u64], op: usize, start: usize) -> Result<Reply, Refusal>
        requires { Valid self.old rows.old }
        ensures { Stepped (model.force op start) self.old rows.old self.new rows.new result }
    {
        free_rows::force(
            &self.file[..self.length],
            self.interval,
            self.horizon,
            op,
            start,
            &mut self.starts,
            rows,
            &mut self.free,
        )
    }

    // Removes a placed operation (document 01: withdraw).
    pub fn remove(&mut self, rows: &mut [u64], op: usize) -> Result<Reply, Refusal>
        requires { Valid self.old rows.old }
        ensures { Stepped (model.remove op) self.old rows.old self.new rows.new result }
    {
        free_rows::remove(
            &self.file[..self.length],
            self.interval,
            op,
            &mut self.starts,
            rows,
            &mut self.free,
        )
    }

    // Keeps a copy of the starts and the numbers (document 01: mark). The rows are not read.
    pub fn checkpoint(&mut self, rows: &[u64]) -> Result<Reply, Refusal>
        requires { Valid self.old rows.now }
        ensures { Stepped model.checkpoint self.old rows.now self.new rows.now result }
    {
        let n = self.marks;
        if 16 <= n {
            return Err(Refusal::Checkpoints);
        }
        self.saved[n] = Kept {
            starts: self.starts,
            free: self.free,
        };
        self.marks = n + 1;
        Ok(Reply::Numbered(n + 1))
    }

    // Forgets the newest checkpoint (document 01: drop). The rows are not read.
    pub fn release(&mut self, rows: &[u64]) -> Result<Reply, Refusal>
        requires { Valid self.old rows.now }
        ensures { Stepped model.release self.old rows.now self.new rows.now result }
    {
        let n = self.marks;
        if n == 0 {
            return Err(Refusal::NoCheckpoint);
        }
        self.marks = n - 1;
        Ok(Reply::Done)
    }

    // Goes back to the starts and the numbers of checkpoint m, which stays open; later ones are forgotten (document 01: back to mark).
    pub fn rollback(&mut self, rows: &mut [u64], m: usize) -> Result<Reply, Refusal>
        requires { Valid self.old rows.old }
        ensures { Stepped (model.rollback m) self.old rows.old self.new rows.new result }
    {
        if m == 0 || self.marks < m {
            return Err(Refusal::NoCheckpoint);
        }
        let wanted = &self.saved[m - 1];
        moves::restore(
            &self.file[..self.length],
            self.interval,
            &wanted.starts,
            &mut self.starts,
            rows,
        );
        self.free = wanted.free;
        self.marks = m;
        Ok(Reply::Done)
    }

    // Makes a call.
    pub fn make(&mut self, rows: &mut [u64], call: Call) -> Result<Reply, Refusal>
        requires { Valid self.old rows.old }
        ensures { Stepped (call_is call) self.old rows.old self.new rows.new result }
    {
        match call {
            Call::Place { op, start } => self.place(rows, op, start),
            Call::Force { op, start } => self.force(rows, op, start),
            Call::Remove { op } => self.remove(rows, op),
            Call::Checkpoint => self.checkpoint(rows),
            Call::Release => self.release(rows),
            Call::Rollback { checkpoint } => self.rollback(rows, checkpoint),
        }
    }
}
