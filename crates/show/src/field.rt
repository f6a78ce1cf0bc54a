// One line for a field, by its kind.
ghost use Rattle.std.specs.Prelude.{◌≡◌, ◌+◌, ◌*◌};

use command::text;

// How many bytes of a body are shown.
const SHOWN: usize = 32;

const DIGITS: [u8; 16] = *b"0123456789abcdef";

// A u64 from its halves: the library has no From for a pair.
fn amount(high: u32, low: u32) -> u64
    ensures { result ≡ high * 4294967296 + low }
{
    u64::from(high) * 4294967296 + u64::from(low)
}

// The bytes of a body; none where it would pass the source.
fn part(s: &[u8], at: usize, length: usize) -> &[u8] {
    s.get(at..)
        .and_then(|behind| behind.get(..length))
        .unwrap_or(&[])
}

// Up to 32 bytes in hex, in the order in which they stand, and two dots where there are more. By digits: `{b:02x}` took fourteen times the instructions.
fn hex(body: &[u8]) {
    let mut line = [[0u8; 2]; SHOWN];
    let n = body.len().min(SHOWN);
    for (pair, b) in line.iter_mut().zip(body) {
        *pair = [DIGITS[usize::from(b / 16)], DIGITS[usize::from(b % 16)]];
    }
    text(line[..n].as_flattened());
    if SHOWN < body.len() {
        text(b"..");
    }
}

// By io, as `place` and `prefix`: see `command::text`.
pub(crate) fn number(name: &[u8], n: u32) {
    text(name);
    command::number(u64::from(n));
    text(b"\n");
}

// The end of a line: a body in hex, where it has bytes.
fn shown(body: &[u8]) {
    if !body.is_empty() {
        text(b": ");
        hex(body);
    }
    text(b"\n");
}

// The start of a line, by io too: see `number`.
fn place(name: &[u8], at: usize) {
    text(name);
    text(b"at ");
    command::number(at as u64);
}

// 32 bytes that are always there.
pub(crate) fn hash(name: &[u8], s: &[u8], at: usize) {
    place(name, at);
    shown(part(s, at, 32));
}

// A body with its length. None stands at 0: that is a field which isn't there.
pub(crate) fn body(name: &[u8], s: &[u8], at: u32, length: u32) {
    if at == 0 {
        text(name);
        text(b"none\n");
        return;
    }
    place(name, at as usize);
    text(b", length ");
    command::number(u64::from(length));
    shown(part(s, at as usize, length as usize));
}

// The same, with the prefix before the place: see `number`.
fn prefix(name: &[u8], n: u32, at: usize) {
    text(name);
    text(b"prefix ");
    command::number(u64::from(n));
    text(b" at ");
    command::number(at as u64);
    text(b": ");
}

// An asset or a nonce, or what else has 32 bytes behind a prefix that isn't 0.
pub(crate) fn token(name: &[u8], s: &[u8], n: u32, at: usize) {
    prefix(name, n, at);
    if n == 0 {
        text(b"null\n");
        return;
    }
    hex(part(s, at.saturating_add(1), 32));
    text(b"\n");
}

// A value: an explicit one is a number.
pub(crate) fn value(name: &[u8], s: &[u8], n: u32, at: usize, high: u32, low: u32) {
    if n != 1 {
        token(name, s, n, at);
        return;
    }
    prefix(name, n, at);
    command::number(amount(high, low));
    text(b"\n");
}
