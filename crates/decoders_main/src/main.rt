// The reader on document 01's loads and on edges of its rules. Each line was worked out from document 01 (crates/loads/proofs/Loads.antt
// has most of the loads, with their bytes laid out). Bytes that a reading never looks at are `e`.
#![tactic(auto)]

use decoders::{Answer, Read, RefusalKind};
use trial::{Reading, Tables};

// In one piece, byte by byte, and in uneven pieces.
fn thrice<const I: usize, const O: usize, const N: usize>(
    mut r: Reading<I, O, N>,
    s: &[u8],
    step: usize,
) {
    for size in [0, 1, step] {
        r.whole(s, size);
    }
}

// In one piece, byte by byte, and in uneven pieces; after each, the sum of a table.
fn many<F: FnMut(usize) -> u32>(step: usize, mut sum_of: F)
    requires { F.IsAlwaysCallable sum_of }
{
    for size in [0, 1, step] {
        let sum = sum_of(size);
        trial::text(b"  sum ");
        trial::number(sum as usize);
        trial::text(b"\n");
    }
}

// Version 2, flag 0, a count of 256 + low, and as many inputs, all 0; then no output and locktime 0. This, `outputs` and `items` share `many`;
// the rest is which bytes and which table, and a bound `FnMut` may not name the table's const parameters.
fn inputs(low: u8) {
    let mut s = [0u8; 10550];
    s[0] = 2;
    s[5] = 0xfd;
    s[6] = low;
    s[7] = 1;
    let mut r = Reading::<5120, 14, 2>::new();
    many(4001, |size| {
        r.whole(&s, size);
        trial::sum(&r.tables.inputs)
    });
}

// Version 2, flag 0, no input, a count of 256 + low, and as many outputs, all null; then locktime 0.
fn outputs(low: u8) {
    let mut s = [0u8; 1041];
    s[0] = 2;
    s[6] = 0xfd;
    s[7] = low;
    s[8] = 1;
    let mut r = Reading::<20, 3584, 2>::new();
    many(401, |size| {
        r.whole(&s, size);
        trial::sum(&r.tables.outputs)
    });
}

// Version 2, flag 1, one input, no output; its script stack has 256 + low items, all empty, and its pegin stack so many. The 256 lengths start
// at 57.
fn items(low: u8, pegin: u8) {
    let mut s = [0u8; 315];
    s[0] = 2;
    s[4] = 1;
    s[5] = 1;
    s[54] = 0xfd;
    s[55] = low;
    s[56] = 1;
    s[313] = pegin;
    let mut r = Reading::<20, 14, 512>::new();
    many(101, |size| {
        r.whole(&s, size);
        trial::sum(&r.tables.items)
    });
}

// With room for one record each.
fn shown<F: Fn(&mut Tables<20, 14, 2>) -> Read>(reading: F)
    requires { F.IsAlwaysCallable reading }
{
    let mut t = Tables::marked();
    let r = reading(&mut t);
    t.line(r.answer, r.taken);
}

// Read at once, and strictly.
fn once(s: &[u8]) {
    shown(|t| t.read(s));
}

fn strictly(s: &[u8]) {
    shown(|t| t.read_strict(s));
}

// One refusal of each number that a reading gives.
fn refusals_1_to_4() {
    // 1: the 96-byte load without its last byte
    once(
        b"\x02\x00\x00\x00\x00\
        \x01eeeeeeeeeeeeeeeeeeeeeeeeeeeeeeee\x00\x00\x00\x00\x00\xfe\xff\xff\xff\
        \x01\x01eeeeeeeeeeeeeeeeeeeeeeeeeeeeeeee\x01\x00\x00\x00\x00\x00\x00\x01\x90\x00\x00\
        \x00\x00\x00",
    );
    // 2: a length of 2^64 - 1, of 2^64 - 51 and of 2^32 - 47: the sum with its start doesn't wrap
    once(
        b"\x02\x00\x00\x00\x00\x01eeeeeeeeeeeeeeeeeeeeeeeeeeeeeeee\x00\x00\x00\x00\xff\xff\xff\xff\xff\xff\xff\xff\xff",
    );
    once(
        b"\x02\x00\x00\x00\x00\x01eeeeeeeeeeeeeeeeeeeeeeeeeeeeeeee\x00\x00\x00\x00\xff\xcd\xff\xff\xff\xff\xff\xff\xff",
    );
    once(
        b"\x02\x00\x00\x00\x00\x01eeeeeeeeeeeeeeeeeeeeeeeeeeeeeeee\x00\x00\x00\x00\xfe\xd1\xff\xff\xff",
    );
    // 3: a count and a length that are not in shortest form; 3 before 4, and before the body's 2
    once(b"\x02\x00\x00\x00\x00\xfd\xfc\x00");
    once(
        b"\x02\x00\x00\x00\x00\x01eeeeeeeeeeeeeeeeeeeeeeeeeeeeeeee\x00\x00\x00\x00\xff\xff\xff\xff\xff\x00\x00\x00\x00",
    );
    // 4: two inputs, two outputs in one record; two items in one record
    once(b"\x02\x00\x00\x00\x00\x02");
    once(b"\x02\x00\x00\x00\x00\x00\x02");
    once(
        b"\x02\x00\x00\x00\x01\
        \x01eeeeeeeeeeeeeeeeeeeeeeeeeeeeeeee\x00\x00\x00\x00\x00\xfe\xff\xff\xff\
        \x00\x00\x00\x00\x00\x00\x00\x02",
    );
}

fn refusals_5_to_7() {
    // 5: asset, value, nonce, an issuance's amount and keys
    once(b"\x02\x00\x00\x00\x00\x00\x01\x02");
    once(b"\x02\x00\x00\x00\x00\x00\x01\x00\x02");
    once(b"\x02\x00\x00\x00\x00\x00\x01\x00\x00\x04");
    once(
        b"\x02\x00\x00\x00\x00\x01eeeeeeeeeeeeeeeeeeeeeeeeeeeeeeee\x00\x00\x00\x80\x00\xfe\xff\xff\xffeeeeeeeeeeeeeeeeeeeeeeeeeeeeeeeeeeeeeeeeeeeeeeeeeeeeeeeeeeeeeeee\x03",
    );
    once(
        b"\x02\x00\x00\x00\x00\x01eeeeeeeeeeeeeeeeeeeeeeeeeeeeeeee\x00\x00\x00\x80\x00\xfe\xff\xff\xffeeeeeeeeeeeeeeeeeeeeeeeeeeeeeeeeeeeeeeeeeeeeeeeeeeeeeeeeeeeeeeee\x00\x03",
    );
    // 6 and 7, with tables that were filled before; 7 is judged after the locktime: 5 and 1 go first
    once(
        b"\x02\x00\x00\x00\x00\x01eeeeeeeeeeeeeeeeeeeeeeeeeeeeeeee\x00\x00\x00\x80\x00\xfe\xff\xff\xffeeeeeeeeeeeeeeeeeeeeeeeeeeeeeeeeeeeeeeeeeeeeeeeeeeeeeeeeeeeeeeee\x00\x00",
    );
    once(
        b"\x02\x00\x00\x00\x02\
        \x01eeeeeeeeeeeeeeeeeeeeeeeeeeeeeeee\x00\x00\x00\x00\x00\xfe\xff\xff\xff\
        \x01\x01eeeeeeeeeeeeeeeeeeeeeeeeeeeeeeee\x01\x00\x00\x00\x00\x00\x00\x01\x90\x00\x00\
        \x00\x00\x00\x00",
    );
    once(b"\x02\x00\x00\x00\x02\x00\x01\x02");
    once(b"\x02\x00\x00\x00\x02\x00\x00\x00\x00\x00");
}

fn refusals_8_and_9() {
    // 8
    once(
        b"\x02\x00\x00\x00\x01\
        \x01eeeeeeeeeeeeeeeeeeeeeeeeeeeeeeee\x00\x00\x00\x00\x00\xfe\xff\xff\xff\
        \x01\x01eeeeeeeeeeeeeeeeeeeeeeeeeeeeeeee\x01\x00\x00\x00\x00\x00\x00\x01\x90\x00\x00\
        \x00\x00\x00\x00\x00\x00\x00\x00\x00\x00",
    );
    // 9: the first byte that follows; 7 and 8 stay; without the strict form nothing is said
    strictly(
        b"\x02\x00\x00\x00\x00\
        \x01eeeeeeeeeeeeeeeeeeeeeeeeeeeeeeee\x00\x00\x00\x00\x00\xfe\xff\xff\xff\
        \x01\x01eeeeeeeeeeeeeeeeeeeeeeeeeeeeeeee\x01\x00\x00\x00\x00\x00\x00\x01\x90\x00\x00\
        \x00\x00\x00\x00\x00",
    );
    strictly(b"\x02\x00\x00\x00\x02\x00\x00\x00\x00\x00\x00\x00");
    strictly(b"\x02\x00\x00\x00\x01\x00\x00\x00\x00\x00\x00\x00");
    once(b"\x02\x00\x00\x00\x00\x00\x00\x00\x00\x00\x00\x00");
}

// One input in 1, 19, 20, 21 numbers.
fn one_input(s: &[u8]) {
    Reading::<1, 14, 2>::new().whole(s, 0);
    Reading::<19, 14, 2>::new().whole(s, 0);
    Reading::<20, 14, 2>::new().whole(s, 0);
    Reading::<21, 14, 2>::new().whole(s, 0);
}

// Two inputs: 39 numbers are one record, 41 are two.
fn two_inputs(s: &[u8]) {
    Reading::<39, 14, 2>::new().whole(s, 0);
    Reading::<41, 14, 2>::new().whole(s, 0);
}

// Tables of other sizes: whole records count, and surplus numbers stay 0.
fn sizes() {
    // no number at all: the empty transaction is accepted, an input is not, an output is not
    Reading::<0, 0, 0>::new().whole(b"\x02\x00\x00\x00\x00\x00\x00\x00\x00\x00\x00", 0);
    Reading::<0, 0, 0>::new().whole(
        b"\x02\x00\x00\x00\x00\x01eeeeeeeeeeeeeeeeeeeeeeeeeeeeeeee\x00\x00\x00\x00\x00\xfe\xff\xff\xff\x00\x00\x00\x00\x00",
        0,
    );
    Reading::<0, 0, 0>::new().whole(
        b"\x02\x00\x00\x00\x00\x00\x01\x00\x00\x00\x00\x00\x00\x00\x00",
        0,
    );
    one_input(
        b"\x02\x00\x00\x00\x00\x01eeeeeeeeeeeeeeeeeeeeeeeeeeeeeeee\x00\x00\x00\x00\x00\xfe\xff\xff\xff\x00\x00\x00\x00\x00",
    );
    two_inputs(
        b"\x02\x00\x00\x00\x00\x02eeeeeeeeeeeeeeeeeeeeeeeeeeeeeeee\x00\x00\x00\x00\x00\xfe\xff\xff\xffeeeeeeeeeeeeeeeeeeeeeeeeeeeeeeee\x01\x00\x00\x40\x00\xff\xff\xff\xff\x00\x00\x00\x00\x00",
    );
    // 13 numbers are no output record, 1 number is no item record
    Reading::<41, 13, 2>::new().whole(
        b"\x02\x00\x00\x00\x00\x00\x01\x00\x00\x00\x00\x00\x00\x00\x00",
        0,
    );
    Reading::<20, 14, 1>::new().whole(
        b"\x02\x00\x00\x00\x01\
        \x01eeeeeeeeeeeeeeeeeeeeeeeeeeeeeeee\x00\x00\x00\x00\x00\xfe\xff\xff\xff\
        \x01\x01eeeeeeeeeeeeeeeeeeeeeeeeeeeeeeee\x01\x00\x00\x00\x00\x00\x00\x01\x90\x00\x00\
        \x00\x00\x00\x00\x00\x00\x01\x00\x00\x00\x00",
        0,
    );
}

// How many numbers of a table a transaction may fill, and their sum.
#[derive(Clone, Copy)]
struct Filled {
    numbers: usize,
    sum: u32,
}

// A transaction, and what a reading of it leaves: whether it is refused, and by which rule, and the three tables.
#[derive(Clone, Copy)]
struct Case {
    bytes: &'static [u8],
    refused: Option<RefusalKind>,
    taken: usize,
    inputs: Filled,
    outputs: Filled,
    items: Filled,
}

// With room for 4 inputs, 5 outputs, 6 items.
type Room = Tables<80, 70, 12>;

// From a number on, all are 0, and all together have the sum.
fn fits(t: &[u32], w: Filled) -> bool {
    w.numbers <= t.len() && trial::all(&t[w.numbers..], 0) && trial::sum(t) == w.sum
}

impl Case {
    // Whether it is the answer to this one. More is never wanted where a reading was finished.
    fn is_answered(self, a: Answer) -> bool {
        match a {
            Answer::Finished(_) => self.refused.is_none(),
            Answer::More => false,
            Answer::Refused(refusal) => self.refused == Some(refusal.kind),
        }
    }

    // Whether a reading that took so many bytes left what it should.
    fn kept(self, a: Answer, taken: usize, t: &Room) -> bool {
        self.is_answered(a)
            && taken == self.taken
            && fits(&t.inputs, self.inputs)
            && fits(&t.outputs, self.outputs)
            && fits(&t.items, self.items)
    }

    // Reads into the tables as they are: at once, or in pieces of `step` bytes, `step` + 1, and so on.
    fn read(self, step: usize, t: &mut Room) -> bool {
        if step == 0 {
            let r = t.read(self.bytes);
            return self.kept(r.answer, r.taken, t);
        }
        let mut r = Reading::on(*t);
        r.pour(self.bytes, step, 1);
        r.finish();
        *t = r.tables;
        self.kept(r.fed.answer, r.fed.taken, t)
    }
}

fn big() -> Case {
    Case {
        bytes: b"\x04\x03\x02\x01\x01\x03\
        eeeeeeeeeeeeeeeeeeeeeeeeeeeeeeee\x05\x00\x00\xc0\x03eee\xfd\xff\xff\xffeeeeeeeeeeeeeeeeeeeeeeeeeeeeeeeeeeeeeeeeeeeeeeeeeeeeeeeeeeeeeeee\x01\x00\x00\x01\x02\x03\x04\x05\x06\x08eeeeeeeeeeeeeeeeeeeeeeeeeeeeeeee\
        eeeeeeeeeeeeeeeeeeeeeeeeeeeeeeee\xff\xff\xff\xff\x00\x01\x00\x00\x00\
        eeeeeeeeeeeeeeeeeeeeeeeeeeeeeeee\xff\xff\xff\xbf\x02ee\xfe\xff\xff\xffeeeeeeeeeeeeeeeeeeeeeeeeeeeeeeeeeeeeeeeeeeeeeeeeeeeeeeeeeeeeeeee\x00\x01\x80\x00\x00\x00\x00\x00\x00\x01\
        \x04\
        \x01eeeeeeeeeeeeeeeeeeeeeeeeeeeeeeee\x01\x00\x00\x00\x01\x00\x00\x00\x02\x00\x00\
        \x0aeeeeeeeeeeeeeeeeeeeeeeeeeeeeeeee\x08eeeeeeeeeeeeeeeeeeeeeeeeeeeeeeee\x02eeeeeeeeeeeeeeeeeeeeeeeeeeeeeeee\x04eeee\
        \x0beeeeeeeeeeeeeeeeeeeeeeeeeeeeeeee\x09eeeeeeeeeeeeeeeeeeeeeeeeeeeeeeee\x03eeeeeeeeeeeeeeeeeeeeeeeeeeeeeeee\x01e\
        \x00\x00\x01eeeeeeeeeeeeeeeeeeeeeeeeeeeeeeee\xfd\xfd\x00eeeeeeeeeeeeeeeeeeeeeeeeeeeeeeeeeeeeeeeeeeeeeeeeeeeeeeeeeeeeeeeeeeeeeeeeeeeeeeeeeeeeeeeeeeeeeeeeeeeeeeeeeeeeeeeeeeeeeeeeeeeeeeeeeeeeeeeeeeeeeeeeeeeeeeeeeeeeeeeeeeeeeeeeeeeeeeeeeeeeeeeeeeeeeeeeeeeeeeeeeeeeeeeeeeeeeeeeeeeeeeeeeeeeeeeeeeeeeeeeeeeeeeeeeeeee\
        \x0d\x0c\x0b\x0a\
        \x02ee\x01e\x02\x03eee\x00\x01\x05eeeee\
        \x00\x00\x00\x00\
        \x00\x02ee\x01\x01e\x00\
        \x00\x00\
        \x03eee\x02ee\
        \x01e\x00\
        \x00\x04eeee",
        refused: None,
        taken: 907,
        inputs: Filled {
            numbers: 60,
            sum: 3271827207,
        },
        outputs: Filled {
            numbers: 56,
            sum: 14853,
        },
        items: Filled {
            numbers: 8,
            sum: 3504,
        },
    }
}

fn small() -> Case {
    Case {
        bytes: b"\x02\x00\x00\x00\x00\
        \x01eeeeeeeeeeeeeeeeeeeeeeeeeeeeeeee\x00\x00\x00\x00\x00\xfe\xff\xff\xff\
        \x01\x01eeeeeeeeeeeeeeeeeeeeeeeeeeeeeeee\x01\x00\x00\x00\x00\x00\x00\x01\x90\x00\x00\
        \x00\x00\x00\x00",
        refused: None,
        taken: 96,
        inputs: Filled {
            numbers: 20,
            sum: 47,
        },
        outputs: Filled {
            numbers: 14,
            sum: 713,
        },
        items: Filled { numbers: 0, sum: 0 },
    }
}

fn refused() -> Case {
    Case {
        bytes: b"\x02\x00\x00\x00\x02\
        \x01eeeeeeeeeeeeeeeeeeeeeeeeeeeeeeee\x00\x00\x00\x00\x00\xfe\xff\xff\xff\
        \x01\x01eeeeeeeeeeeeeeeeeeeeeeeeeeeeeeee\x01\x00\x00\x00\x00\x00\x00\x01\x90\x00\x00\
        \x00\x00\x00\x00",
        refused: Some(RefusalKind::BadFlag),
        taken: 96,
        inputs: Filled { numbers: 0, sum: 0 },
        outputs: Filled { numbers: 0, sum: 0 },
        items: Filled { numbers: 0, sum: 0 },
    }
}

// The big one, the small one, the big one, the refused one: how many of them went wrong.
fn round(step: usize, t: &mut Room) -> usize {
    let mut bad = 0usize;
    for c in [big(), small(), big(), refused()] {
        if !c.read(step, t) {
            bad = bad.wrapping_add(1);
        }
    }
    bad
}

// 250 rounds in the same tables: how many of the 1,000 went wrong. The first piece of each transaction is `more` longer in each round; 0: at
// once.
fn thousand(more: usize) {
    let mut t = Room::marked();
    let mut bad = 0usize;
    for k in 1..251usize {
        bad = bad.wrapping_add(round(more.wrapping_mul(k), &mut t));
    }
    trial::text(b"1000 transactions, wrong: ");
    trial::number(bad);
    trial::text(b"\n");
}

// 01's loads that are not marked (P): 96 bytes, 103 bytes, 6 at 47; with room for one record each
fn loads() {
    thrice(
        Reading::<20, 14, 2>::new(),
        b"\x02\x00\x00\x00\x00\
        \x01eeeeeeeeeeeeeeeeeeeeeeeeeeeeeeee\x00\x00\x00\x00\x00\xfe\xff\xff\xff\
        \x01\x01eeeeeeeeeeeeeeeeeeeeeeeeeeeeeeee\x01\x00\x00\x00\x00\x00\x00\x01\x90\x00\x00\
        \x00\x00\x00\x00",
        41,
    );
    thrice(
        Reading::<20, 14, 2>::new(),
        b"\x02\x00\x00\x00\x01\
        \x01eeeeeeeeeeeeeeeeeeeeeeeeeeeeeeee\x00\x00\x00\x00\x00\xfe\xff\xff\xff\
        \x01\x01eeeeeeeeeeeeeeeeeeeeeeeeeeeeeeee\x01\x00\x00\x00\x00\x00\x00\x01\x90\x00\x00\
        \x00\x00\x00\x00\x00\x00\x01\x00\x00\x00\x00",
        45,
    );
    thrice(
        Reading::<20, 14, 2>::new(),
        b"\x02\x00\x00\x00\x00\x01eeeeeeeeeeeeeeeeeeeeeeeeeeeeeeee\x00\x00\x00\x80\x00\xfe\xff\xff\xffeeeeeeeeeeeeeeeeeeeeeeeeeeeeeeeeeeeeeeeeeeeeeeeeeeeeeeeeeeeeeeee\x00\x00",
        50,
    );
}

// With room for 3 inputs, 4 outputs, 4 items.
fn every_feature() {
    thrice(
        Reading::<60, 56, 8>::new(),
        b"\x04\x03\x02\x01\x01\x03\
        eeeeeeeeeeeeeeeeeeeeeeeeeeeeeeee\x05\x00\x00\xc0\x03eee\xfd\xff\xff\xffeeeeeeeeeeeeeeeeeeeeeeeeeeeeeeeeeeeeeeeeeeeeeeeeeeeeeeeeeeeeeeee\x01\x00\x00\x01\x02\x03\x04\x05\x06\x08eeeeeeeeeeeeeeeeeeeeeeeeeeeeeeee\
        eeeeeeeeeeeeeeeeeeeeeeeeeeeeeeee\xff\xff\xff\xff\x00\x01\x00\x00\x00\
        eeeeeeeeeeeeeeeeeeeeeeeeeeeeeeee\xff\xff\xff\xbf\x02ee\xfe\xff\xff\xffeeeeeeeeeeeeeeeeeeeeeeeeeeeeeeeeeeeeeeeeeeeeeeeeeeeeeeeeeeeeeeee\x00\x01\x80\x00\x00\x00\x00\x00\x00\x01\
        \x04\
        \x01eeeeeeeeeeeeeeeeeeeeeeeeeeeeeeee\x01\x00\x00\x00\x01\x00\x00\x00\x02\x00\x00\
        \x0aeeeeeeeeeeeeeeeeeeeeeeeeeeeeeeee\x08eeeeeeeeeeeeeeeeeeeeeeeeeeeeeeee\x02eeeeeeeeeeeeeeeeeeeeeeeeeeeeeeee\x04eeee\
        \x0beeeeeeeeeeeeeeeeeeeeeeeeeeeeeeee\x09eeeeeeeeeeeeeeeeeeeeeeeeeeeeeeee\x03eeeeeeeeeeeeeeeeeeeeeeeeeeeeeeee\x01e\
        \x00\x00\x01eeeeeeeeeeeeeeeeeeeeeeeeeeeeeeee\xfd\xfd\x00eeeeeeeeeeeeeeeeeeeeeeeeeeeeeeeeeeeeeeeeeeeeeeeeeeeeeeeeeeeeeeeeeeeeeeeeeeeeeeeeeeeeeeeeeeeeeeeeeeeeeeeeeeeeeeeeeeeeeeeeeeeeeeeeeeeeeeeeeeeeeeeeeeeeeeeeeeeeeeeeeeeeeeeeeeeeeeeeeeeeeeeeeeeeeeeeeeeeeeeeeeeeeeeeeeeeeeeeeeeeeeeeeeeeeeeeeeeeeeeeeeeeeeeeeeeee\
        \x0d\x0c\x0b\x0a\
        \x02ee\x01e\x02\x03eee\x00\x01\x05eeeee\
        \x00\x00\x00\x00\
        \x00\x02ee\x01\x01e\x00\
        \x00\x00\
        \x03eee\x02ee\
        \x01e\x00\
        \x00\x04eeee",
        400,
    );
}

fn main() {
    loads();
    every_feature();
    // 256 inputs in 256 records, and 257
    inputs(0);
    inputs(1);
    // the same of outputs; of items, and a pegin item behind 256
    outputs(0);
    outputs(1);
    items(0, 0);
    items(1, 0);
    items(0, 1);
    refusals_1_to_4();
    refusals_5_to_7();
    refusals_8_and_9();
    sizes();
    // at once, and in pieces
    thousand(0);
    thousand(1);
}
