// Runs the reader over embedded files, valid and damaged, and prints a line for each. What it must print, the file stdout, was worked
// out by hand from docs/FORMAT.md.
#![tactic(auto)]

mod files;
mod lengths;
mod show;

use files::Damage;
use trial::loops;

// A file of R's length with a damage of the tables.
fn changed(mut file: [u8; 44], (at, value): Damage) -> [u8; 44] {
    if at < 44 {
        file[at] = value;
    }
    file
}

// What a damage changes.
fn name(text: &[u8], (at, value): Damage) {
    show::number(text, at);
    show::number(b" is ", usize::from(value));
}

// The answers on R with one byte changed.
fn one_byte_damages() {
    for damage in files::ONE_BYTE {
        name(b"byte ", damage);
        show::answer(&changed(files::R, damage));
    }
}

// The answers on R with two bytes changed.
fn two_byte_damages() {
    for (first, second) in files::TWO_BYTES {
        name(b"byte ", first);
        name(b", byte ", second);
        show::answer(&changed(changed(files::R, first), second));
    }
}

// A file by its name, and the answer on it.
fn named(name: &[u8], file: &[u8]) {
    io::write_all(1, name);
    show::answer(file);
}

// Whole files: loop A, R, loop A with another version, and no bytes.
fn whole_files() {
    let mut a = loops::LOOP_A;
    show::whole(b"loop A", &a);
    show::whole(b"base", &files::R);
    a[0] = 2;
    show::whole(b"loop A with version 2", &a);
    show::whole(b"empty", b"");
}

fn main() {
    // R is accepted.
    named(b"base", &files::R);
    // Damages of one byte: each way to earn each of the refusals 2 to 6, and values at the limits that are accepted.
    one_byte_damages();
    // Damages of two bytes: the first in file order is the answer.
    two_byte_damages();
    // Lengths: of R cut and longer, of the smallest file, and of the largest.
    lengths::base();
    named(b"smallest", &loops::SMALLEST);
    lengths::largest();
    // Whole files, with the lengths of the bodies and every record.
    whole_files();
}
