// What each call is refused for, in document 01's order. Internal: each function asks for an accepted file.
ghost use Rattle.std.specs.Prelude.{◌≡◌, [], ◌∷◌};
ghost use Rattle.model.specs.Refusals.{first_refusal};
ghost use Rattle.model.specs.File.{Accepted};
ghost use Rattle.model.specs.Session.{checks, absent, taken, late};
ghost use Rattle.model.specs.Session as model;
ghost use Rattle.board.specs.Board.{Board, Named, Numbers, setup_as, bare};
ghost use Rattle.refusals.specs.Told.{refusal_of};
ghost use Rattle.reservation.specs.Place.{InRange};
ghost use Rattle.board.specs.Checks.{as_unmet, as_clash};

use loop_access::{first_use, op_count};
use refusals::Refusal;
use reservation::deps::{first_broken, first_own_broken};
use reservation::test::{conflict, own_place};
use reservation::{NOT_PLACED, Place, number};

// An operation that is there and not placed, and a start below the horizon: what placing and forcing have in common.
fn known(
    file: &[u8],
    horizon: usize,
    op: usize,
    start: usize,
    starts: &[u16; 64],
) -> Result<(), Refusal>
    requires { Named file.now starts.now }
    ensures { refusal_of result ≡ first_refusal (absent (setup_as file.now 0 horizon) op ∷ taken (bare file.now starts.now) op ∷ late (setup_as file.now 0 horizon) op start ∷ []) }
{
    if op_count(file) <= op {
        return Err(Refusal::NoOperation(op));
    }
    if starts[op] != NOT_PLACED {
        return Err(Refusal::Placed(op));
    }
    if horizon <= start {
        return Err(Refusal::Start(op));
    }
    Ok(())
}

// A broken dependence as a refusal.
fn unmet(broken: Option<usize>) -> Result<(), Refusal>
    ensures { result ≡ as_unmet broken }
{
    match broken {
        Some(e) => Err(Refusal::Broken(e)),
        None => Ok(()),
    }
}

// The first taken place as a refusal, whose detail is its number.
fn clash(place: Option<Place>) -> Result<(), Refusal>
    requires { InRange place }
    ensures { result ≡ as_clash place }
{
    match place {
        Some(_) => Err(Refusal::Conflict(number(place))),
        None => Ok(()),
    }
}

// Placing an operation at a start.
pub fn placeable(
    file: &[u8],
    interval: usize,
    horizon: usize,
    op: usize,
    start: usize,
    starts: &[u16; 64],
    rows: &[u64],
) -> Result<(), Refusal>
    requires { Board file.now interval horizon starts.now rows.now }
    ensures { refusal_of result ≡ first_refusal (checks (setup_as file.now interval horizon) (model.place op start) (bare file.now starts.now)) }
{
    known(file, horizon, op, start, starts)?;
    unmet(first_broken(file, op, start, interval, starts))?;
    clash(conflict(file, op, first_use(file, op), start, interval, rows))
}

// Forcing an operation to a start: only what concerns the operation itself counts.
pub fn forceable(
    file: &[u8],
    interval: usize,
    horizon: usize,
    op: usize,
    start: usize,
    starts: &[u16; 64],
) -> Result<(), Refusal>
    requires { Accepted file.now × Numbers interval horizon × Named file.now starts.now }
    ensures { refusal_of result ≡ first_refusal (checks (setup_as file.now interval horizon) (model.force op start) (bare file.now starts.now)) }
{
    known(file, horizon, op, start, starts)?;
    unmet(first_own_broken(file, op, start, interval))?;
    clash(own_place(file, op, first_use(file, op), interval))
}

// Removing an operation.
pub fn removable(file: &[u8], op: usize, starts: &[u16; 64]) -> Result<(), Refusal>
    requires { Named file.now starts.now }
    ensures { refusal_of result ≡ first_refusal (checks (setup_as file.now 0 0) (model.remove op) (bare file.now starts.now)) }
{
    if op_count(file) <= op {
        return Err(Refusal::NoOperation(op));
    }
    if starts[op] == NOT_PLACED {
        return Err(Refusal::NotPlaced(op));
    }
    Ok(())
}
