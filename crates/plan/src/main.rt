// Reads a loop file from standard input to its end, and prints the planner's schedule, or the refusal. (What it has in common with `schedule` is `console::with_input` and `listing`; the call and the first line are its own.)
#![tactic(auto)]

use planner::PlanFound;

// `interval I resource R recurrence B stages S`, and `smallest` where no smaller interval has a schedule, else `legal`.
fn summary(f: PlanFound) {
    let numbers = [f.interval, f.resource, f.recurrence, f.stages];
    if f.smallest {
        console::list(
            b"interval % resource % recurrence % stages % smallest\n",
            &numbers,
        );
    } else {
        console::list(
            b"interval % resource % recurrence % stages % legal\n",
            &numbers,
        );
    }
}

// The plan of a file, with the cap, horizon and allowance of the program `schedule`.
fn plan(file: &[u8]) {
    let mut list = [0u16; 64];
    let mut rows = [0u64; 4096];
    match planner::plan(file, 4096, 256, 1000000, &mut list, &mut rows) {
        Ok(found) => {
            summary(found);
            listing::print(file, found.interval, &list);
        }
        Err(unsolved) => listing::refused(unsolved.number(), unsolved.detail()),
    }
}

// Keeps 1,691 bytes of the input, one more than the longest loop file has.
fn main(rt: HostRuntime) {
    let mut bytes = [0u8; 1691];
    console::with_input(&mut rt.stdin(), &mut bytes, plan);
}
