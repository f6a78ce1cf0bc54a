// The output as a sink: each byte is stored where the last one ended.
ghost use Rattle.std.specs.Prelude.{◌≡◌, ℕ, length};
ghost use Rattle.encoders.specs.Stores.{stored};

use crate::sink::Sink;

#[inline(always)]
fn copy_array<const N: usize>(bytes: &[u8; N], out: &mut [u8])
    requires { length out.old ≡ N }
    ensures { out.new ≡ bytes.now }
{
    if let Some(place) = out.as_mut_array::<N>() {
        *place = *bytes;
    }
}

// By index, as `copy_long`: behind `iter_mut` or `as_chunks_mut` a proof knows a slice's length, not its elements.
#[inline(always)]
fn copy_bytes(bytes: &[u8], out: &mut [u8])
    requires { length bytes.now ≡ length out.old }
    ensures { out.new ≡ bytes.now }
{
    for i in 0..bytes.len() {
        out[i] = bytes[i];
    }
}

// Blocks of one known length, which the compiler unrolls, and then the rest. A call, since the blocks would stand in each place.
#[inline(never)]
fn copy_long(bytes: &[u8], out: &mut [u8])
    requires { length bytes.now ≡ length out.old }
    ensures { out.new ≡ bytes.now }
{
    let mut at = 0;
    while 512 <= bytes.len() - at {
        let end = at + 512;
        copy_bytes(&bytes[at..end], &mut out[at..end]);
        at = end;
    }
    copy_bytes(&bytes[at..], &mut out[at..]);
}

// A hash goes as an array, which is two moves; what is shorter than a block in a loop that stands where it is called; the rest by a call. Each of
// them asks for equal lengths: no type holds two slices of one length.
// `copy_from_slice` compiles to C's `memmove`: the library is to need nothing but `memcpy` and `memset` (README).
#[inline(always)]
fn copy(bytes: &[u8], out: &mut [u8])
    requires { length bytes.now ≡ length out.old }
    ensures { out.new ≡ bytes.now }
{
    if bytes.len() < 32 {
        copy_bytes(bytes, out);
        return;
    }
    if let Some(hash) = bytes.as_array::<32>() {
        copy_array(hash, out);
        return;
    }
    if bytes.len() < 512 {
        copy_bytes(bytes, out);
        return;
    }
    copy_long(bytes, out);
}

// A slice and a place, no Vec: the output is the caller's.
#[derive(Drop)]
pub(crate) struct Store<'a> {
    pub(crate) out: &'a mut [u8],
    pub(crate) at: usize,
}

impl Sink for Store<'_> {
    ghost step = { stored };

    // Behind the output's end nothing is stored: a sink asks nothing of its caller. `write` has seen the room before (else 14), so nothing is dropped.
    #[inline(always)]
    fn byte(&mut self, b: u8) {
        if self.at < self.out.len() {
            self.out[self.at] = b;
            self.at += 1;
        }
    }

    // In one piece; where there is no room for all of it, as much of it as fits. An empty one first: many bodies are.
    #[inline(always)]
    fn part(&mut self, bytes: &[u8]) {
        if bytes.is_empty() {
            return;
        }
        if self.out.len() <= self.at {
            return;
        }
        let room = self.out.len() - self.at;
        if bytes.len() <= room {
            let end = self.at + bytes.len();
            copy(bytes, &mut self.out[self.at..end]);
            self.at = end;
            return;
        }
        copy_long(&bytes[..room], &mut self.out[self.at..]);
        self.at += room;
    }
}
