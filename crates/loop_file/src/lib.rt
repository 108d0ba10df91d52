// The reader of loop files (document 01): from any bytes to the numbers of an accepted loop, or the first refusal; and the three section bodies. What the layers above read of an
// accepted file is in the crate `loop_access`.
#![tactic(auto)]

mod reader;

ghost use Rattle.std.specs.Prelude.{◌≡◌};
ghost use Rattle.model.specs.File.{read_file, oper_body, uses_body, deps_body};
ghost use Rattle.loop_file.specs.Read.{reading_of, counted};

use loop_access::USE_WIDTH;
use loop_access::bytes::word;
use refusals::{Refusal, passed_on};

// The numbers of operations, uses and dependences of an accepted file.
#[derive(Clone, Copy, Debug, PartialEq, Eq)]
pub struct Counts {
    pub operations: usize,
    pub uses: usize,
    pub dependences: usize,
}

// Reads any file. Document 01 names `let .. else` for the reader and the entry points, so the refusal is passed on by a function.
#[tactic(auto, using(crate::proofs::FileChecks::from_head))]
pub fn read(file: &[u8]) -> Result<Counts, Refusal>
    ensures { reading_of result ≡ counted (read_file file.now) }
{
    let head = reader::head(file);
    let Ok(()) = head else {
        return passed_on(head);
    };
    let contents = reader::contents(file);
    let Ok(()) = contents else {
        return passed_on(contents);
    };
    let bodies = reader::bodies(file);
    let Ok(uses) = bodies else {
        return passed_on(bodies);
    };
    Ok(Counts {
        operations: word(file, 8) / 2,
        uses,
        dependences: word(file, 24) / 4,
    })
}

// The body OPER of an accepted file, as part of the file; of a refused one the empty part: `read` tells the refusal.
#[tactic(auto, using(crate::proofs::Sections::sections))]
pub fn oper_body(file: &[u8]) -> &[u8]
    ensures { result.now ≡ oper_body file.now }
{
    let Ok(counts) = read(file) else {
        return &file[..0];
    };
    let end = 26 + 2 * counts.operations;
    &file[26..end]
}

// The body USES, likewise: empty also where no operation has a use, which `read` tells apart.
#[tactic(auto, using(crate::proofs::Sections::sections))]
pub fn uses_body(file: &[u8]) -> &[u8]
    ensures { result.now ≡ uses_body file.now }
{
    let Ok(counts) = read(file) else {
        return &file[..0];
    };
    let start = 26 + 2 * counts.operations;
    let end = start + USE_WIDTH * counts.uses;
    &file[start..end]
}

// The body DEPS, likewise: empty also where there is no dependence, which `read` tells apart.
#[tactic(auto, using(crate::proofs::Sections::sections))]
pub fn deps_body(file: &[u8]) -> &[u8]
    ensures { result.now ≡ deps_body file.now }
{
    let Ok(counts) = read(file) else {
        return &file[..0];
    };
    let start = 26 + 2 * counts.operations + USE_WIDTH * counts.uses;
    let end = start + 4 * counts.dependences;
    &file[start..end]
}
