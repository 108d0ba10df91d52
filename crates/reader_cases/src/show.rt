// What is printed of a file.
ghost use Rattle.std.specs.Prelude.{◌<◌, length};
ghost use Rattle.model.specs.Loop.{size, all_uses};
ghost use Rattle.model.specs.File.{loop_of, Accepted};

// Text, and a number after it.
pub fn number(text: &[u8], n: usize) {
    io::write_all(1, text);
    io::print_decimal(1, n as u64);
}

// The end of a line.
fn end() {
    io::write_all(1, b"\n");
}

// Text, and a number after it that may be below 0.
fn signed(text: &[u8], x: i32) {
    io::write_all(1, text);
    if x < 0 {
        io::write_all(1, b"-");
    }
    io::print_decimal(1, u64::from(x.unsigned_abs()));
}

// The reader's answer on a file, as the end of a line.
pub fn answer(file: &[u8]) {
    match loop_file::read(file) {
        Ok(counts) => {
            number(b": accepted ", counts.operations);
            number(b" ", counts.uses);
            number(b" ", counts.dependences);
        }
        Err(refusal) => {
            number(b": refused ", refusal.number());
            number(b" at ", refusal.detail());
        }
    }
    end();
}

// The lengths of the three section bodies, as the calls return them.
fn bodies(file: &[u8]) {
    number(b"bodies ", loop_file::oper_body(file).len());
    number(b" ", loop_file::uses_body(file).len());
    number(b" ", loop_file::deps_body(file).len());
    end();
}

// An operation, by the accessors.
fn operation(file: &[u8], o: usize)
    requires { Accepted file.now × (o < size (loop_of file.now)) }
{
    number(b"op ", o);
    number(b" latency ", loop_access::latency(file, o));
    number(b" uses ", loop_access::use_count(file, o));
    number(b" first ", loop_access::first_use(file, o));
    end();
}

// Every operation of an accepted file.
fn operations(file: &[u8])
    requires { Accepted file.now }
{
    for o in 0..loop_access::op_count(file) {
        operation(file, o);
    }
}

// A use, by the accessors.
fn one_use(file: &[u8], u: usize)
    requires { Accepted file.now × (u < length (all_uses (loop_of file.now))) }
{
    number(b"use ", u);
    number(b" slot ", loop_access::slot(file, u));
    number(b" offset ", loop_access::offset(file, u));
    number(b" duration ", loop_access::duration(file, u));
    end();
}

// Every use of an accepted file.
fn uses(file: &[u8])
    requires { Accepted file.now }
{
    for u in 0..loop_access::use_total(file) {
        one_use(file, u);
    }
}

// A dependence, by the accessors.
fn dependence(file: &[u8], e: usize)
    requires { Accepted file.now × (e < length (loop_of file.now).deps) }
{
    number(b"dep ", e);
    number(b" from ", loop_access::source(file, e));
    number(b" to ", loop_access::target(file, e));
    signed(b" delay ", loop_access::delay(file, e));
    number(b" distance ", loop_access::distance(file, e));
    end();
}

// Every dependence of an accepted file.
fn dependences(file: &[u8])
    requires { Accepted file.now }
{
    for e in 0..loop_access::dep_count(file) {
        dependence(file, e);
    }
}

// Every operation, use and dependence of a file; of a refused one none.
#[tactic(auto, using(loop_file::proofs::Answers::read_accepted))]
fn records(file: &[u8]) {
    if let Ok(_) = loop_file::read(file) {
        operations(file);
        uses(file);
        dependences(file);
    }
}

// A file by its name: the answer, the lengths of the bodies, and all that is in it.
pub fn whole(name: &[u8], file: &[u8]) {
    io::write_all(1, name);
    answer(file);
    bodies(file);
    records(file);
}
