// Loads that are too large for the cases: counts and lengths of several bytes, sources and outputs about 4,000,000 bytes.
use crate::load;
use crate::show::Given;
use decoders::Head;
use trial::Tables;

// Reads, and writes back.
fn again<const I: usize, const O: usize, const N: usize>(
    name: &[u8],
    s: &[u8],
    mut t: Tables<I, O, N>,
    out: &mut [u8],
) {
    trial::text(name);
    let r = t.read(s);
    let given = Given {
        head: load::finished(r.answer),
        inputs: &t.inputs,
        outputs: &t.outputs,
        items: &t.items,
        source: s,
    };
    given.line(s, out);
}

// 01's load of 256 inputs, all 0, and five bytes more of room. This, `outputs` and `items` share `again`; the rest is sizes and bytes, each its
// own, and a const parameter for a size may not be computed from another.
fn inputs() {
    let mut s = [0u8; 10509];
    s[0] = 2;
    s[5] = 0xfd;
    s[7] = 1;
    let t = Tables::<5120, 14, 2>::marked();
    let mut out = [0u8; 10514];
    again(b"256 inputs:", &s, t, &mut out);
}

// 256 null outputs.
fn outputs() {
    let mut s = [0u8; 1037];
    s[0] = 2;
    s[6] = 0xfd;
    s[8] = 1;
    let t = Tables::<20, 3584, 2>::marked();
    let mut out = [0u8; 1042];
    again(b"256 outputs:", &s, t, &mut out);
}

// One input with 256 empty items.
fn items() {
    let mut s = [0u8; 314];
    s[0] = 2;
    s[4] = 1;
    s[5] = 1;
    s[54] = 0xfd;
    s[56] = 1;
    let t = Tables::<20, 14, 512>::marked();
    let mut out = [0u8; 319];
    again(b"256 items:", &s, t, &mut out);
}

pub(crate) fn many() {
    inputs();
    outputs();
    items();
}

// One input, no output.
fn head(flag: u32, items: u32) -> Head {
    Head {
        version: 2,
        flag,
        inputs: 1,
        outputs: 0,
        items,
        locktime: 0,
        bytes: 0,
    }
}

fn input(txid: u32, script: u32, length: u32) -> [u32; 20] {
    let mut r = [0u32; 20];
    r[0] = txid;
    r[3] = script;
    r[4] = length;
    r[5] = 4294967294;
    r
}

// What a writing of this one input is given.
fn given<'a>(head: Head, r: &'a [u32; 20], items: &'a [u32], source: &'a [u8]) -> Given<'a> {
    Given {
        head,
        inputs: r,
        outputs: &[],
        items,
        source,
    }
}

// An input whose script is too long to be written here: only its length is asked for, and its refusals.
fn scripted(name: &[u8], flag: u32, r: [u32; 20], source: &[u8]) {
    let mut out = [0u8; 60];
    trial::text(name);
    given(head(flag, 0), &r, &[], source).line(
        b"\x02\x00\x00\x00\x00\x01ssssssssssssssssssssssssssssssss\x00\x00\x00\x00\x00\xfe\xff\xff\xff\x00\x00\x00\x00\x00",
        &mut out,
    );
}

// Made apart, so that its bytes are not looked at where it is lent.
fn alike<const L: usize>(b: u8) -> [u8; L] {
    [b; L]
}

// With a script of n bytes, in five bytes of length, 56 + n are written. 8 before 2 before 14.
fn scripts(s: &[u8]) {
    scripted(b"script of 4000000:", 0, input(0, 32, 4000000), s);
    scripted(
        b"script of 4000000, empty witness:",
        1,
        input(0, 32, 4000000),
        s,
    );
    scripted(b"script of 3999945:", 0, input(0, 32, 3999945), s);
    scripted(b"script of 3999944:", 0, input(0, 32, 3999944), s);
    scripted(
        b"txid at the end of 4000033 bytes:",
        0,
        input(4000001, 4000033, 0),
        s,
    );
    scripted(b"txid past it:", 0, input(4000002, 4000033, 0), s);
}

// A source longer than 4,000,000 bytes, all s.
pub(crate) fn sources() {
    let s = alike::<4000033>(b's');
    scripts(&s);
}

// A script of so many bytes, from a source that is all s.
fn sized(name: &[u8], length: u32, s: &[u8], out: &mut [u8]) {
    given(head(0, 0), &input(0, 32, length), &[], s).sums(name, out);
}

// Scripts whose lengths are written in one, three and five bytes.
pub(crate) fn lengths() {
    let s = [b's'; 65568];
    let mut out = [0u8; 65600];
    sized(b"script of 252:", 252, &s, &mut out);
    sized(b"script of 253:", 253, &s, &mut out);
    sized(b"script of 65535:", 65535, &s, &mut out);
    sized(b"script of 65536:", 65536, &s, &mut out);
}

// Seven script items of 500,000 bytes and a pegin item of so many, all from the same source: 96 bytes more are written.
fn eight(last: u32) -> [u32; 16] {
    [
        0, 500000, 0, 500000, 0, 500000, 0, 500000, 0, 500000, 0, 500000, 0, 500000, 0, last,
    ]
}

// 4,000,000 bytes are written, 4,000,001 are not.
fn eights(s: &[u8], out: &mut [u8]) {
    let mut r = input(0, 0, 0);
    r[18] = 7;
    r[19] = 1;
    given(head(1, 8), &r, &eight(499904), s).sums(b"4000000 bytes:", out);
    given(head(1, 8), &r, &eight(499905), s).sums(b"4000001 bytes:", out);
}

// An output with one byte behind the limit.
pub(crate) fn limit() {
    let s = alike::<500000>(b's');
    let mut out = alike::<4000001>(0);
    eights(&s, &mut out);
}
