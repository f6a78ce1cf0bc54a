// What the reader's test programs share: tables of any size, bytes fed in pieces, and a line that tells the answer, the bytes taken, and what
// the tables hold.
#![tactic(auto)]

mod reading;
mod tables;

ghost use Rattle.std.specs.Prelude.{◌≡◌, ◌+◌, ◌%◌, ◌^◌, ◌==◌};
ghost use Rattle.std.specs.List.{list_all, fold};

use decoders::Answer;
pub use reading::Reading;
use std::fmt::InlineText;
pub use tables::Tables;

// What every number of the tables is before a fresh start, and before a call that must leave them.
pub const MARK: u32 = 7;

const STDOUT_FILENO: i32 = 1;

// By io: `print!` would want the runtime in every function that prints, and hand back a failure that nobody reads.
pub fn text(s: &[u8]) {
    io::write_all(STDOUT_FILENO, s);
}

pub fn number(n: usize) {
    io::print_decimal(STDOUT_FILENO, n as u64);
}

// io prints the number: a Display would be a type of its own around each u32
fn spaced(n: u32) {
    text(b" ");
    number(n as usize);
}

// A name, and the numbers behind it.
pub fn row(name: &[u8], t: &[u32]) {
    text(name);
    for n in t {
        spaced(*n);
    }
    text(b"\n");
}

// Whether each number is m.
pub fn all(t: &[u32], m: u32) -> bool
    ensures { result ≡ list_all (λ n. n == m) t.now }
{
    t.iter().all(|n| *n == m)
}

// The sum of the numbers, modulo 2^32.
pub fn sum(t: &[u32]) -> u32
    ensures { result ≡ fold (λ total n. (total + n) % 2 ^ 32) 0 t.now }
{
    t.iter().fold(0u32, |total, n| total.wrapping_add(*n))
}

// Finished with its head numbers, more, or a refusal and its place; then the bytes taken.
pub fn answer(a: Answer, taken: usize) {
    match a {
        // Head has no Display: each program tells it in lines of its own
        Answer::Finished(head) => {
            text(b"finished:");
            spaced(head.version);
            spaced(head.flag);
            spaced(head.inputs);
            spaced(head.outputs);
            spaced(head.items);
            spaced(head.locktime);
            spaced(head.bytes);
        }
        Answer::More => text(b"more"),
        Answer::Refused(refusal) => text(InlineText::<64>::of(refusal).as_str().as_bytes()),
    }
    text(b", taken ");
    number(taken);
}
