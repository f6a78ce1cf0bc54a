// Feeding: a field's bytes are gathered, and it settles with its last one.
ghost use Rattle.std.specs.Prelude.{◌≡◌, ◌≢◌, ◌<◌, ◌^◌, length, MatchOption};
ghost use Rattle.decoders.specs.Machine.{worth, worths, gathered, machine, fed};
ghost use Rattle.decoders.specs.Feeding.{tables};
ghost use Rattle.decoders.specs.Needs.{Worthy, Gathers, whole, Fits, Feeds, Starts, ours};

use crate::settling::Settling;
use crate::{Field, TransactionDecoder, stages, tables};

// 256 ^ j.
pub(crate) fn power(j: usize) -> usize
    requires { j < 8 }
    ensures { result ≡ 256 ^ j }
{
    1 << (8 * j)
}

// What one more byte of a number makes of its value.
fn worth(form: usize, value: usize, have: usize, b: usize) -> usize
    requires { Worthy form value have b }
    ensures { result ≡ worth form value have b }
{
    if form == stages::BIG {
        value * 256 + b
    } else {
        value + b * power(have)
    }
}

// A number whose bytes stand whole in the piece is loaded at once: 2, 4 or 8 bytes little-endian, an amount's 8 big-endian.
fn whole(form: usize, part: &[u8]) -> Option<usize>
    ensures { MatchOption result (Unit {0}) (λ n. n ≡ whole form part.now) }
{
    if form == stages::BIG {
        let bytes = part.as_array()?;
        return Some(u64::from_be_bytes(*bytes) as usize);
    }
    if let Some(bytes) = part.as_array() {
        return Some(usize::from(u16::from_le_bytes(*bytes)));
    }
    if let Some(bytes) = part.as_array() {
        return Some(u32::from_le_bytes(*bytes) as usize);
    }
    let bytes = part.as_array()?;
    Some(u64::from_le_bytes(*bytes) as usize)
}

impl Field {
    // What a part of a number makes of its value, byte by byte.
    fn worths_slow(self, part: &[u8]) -> usize
        requires looked { self.form ≢ 2 }
        requires gathers { Gathers self.form self.value self.have (length part.now) }
        ensures { result ≡ worths self.form self.value self.have part.now }
    {
        let mut v = self.value;
        for (i, b) in part.iter().enumerate() {
            v = worth(self.form, v, self.have + i, usize::from(*b));
        }
        v
    }

    // What a part of a field makes of its value; a part that is never looked at makes nothing.
    fn worths(self, part: &[u8]) -> usize
        requires { Gathers self.form self.value self.have (length part.now) }
        ensures { result ≡ worths self.form self.value self.have part.now }
    {
        if self.form == stages::OPAQUE {
            return self.value;
        }
        if let [b] = part {
            return worth(self.form, self.value, self.have, usize::from(*b));
        }
        if self.have == 0 {
            if let Some(n) = whole(self.form, part) {
                return n;
            }
        }
        self.worths_slow(part)
    }
}

impl TransactionDecoder {
    pub(crate) fn gathered(mut self, k: usize, v: usize) -> TransactionDecoder
        requires { Fits k self }
        ensures { result ≡ gathered k v self }
    {
        self.field.have += k;
        self.field.value = v;
        self.taken += k;
        self
    }

    // One field's step: as many of the bytes as belong to it are gathered; with its last one it settles.
    pub(crate) fn advance(
        self,
        rest: &[u8],
        inputs: &mut [u32],
        outputs: &mut [u32],
        items: &mut [u32],
    ) -> TransactionDecoder
        requires { Feeds self (tables inputs.old outputs.old items.old) rest.now }
        ensures { machine result (tables inputs.new outputs.new items.new) ≡ fed (machine self (tables inputs.old outputs.old items.old)) (ours self rest.now) }
    {
        let need = self.field.width - self.field.have;
        let k = need.min(rest.len());
        let v = self.field.worths(&rest[..k]);
        let next = self.gathered(k, v);
        if k < need {
            return next;
        }
        let done = Settling { decoder: next }.settle();
        let entered = done.entered;
        tables::enter(entered, inputs, outputs, items);
        done.decoder
    }

    // A whole piece, field after field. An ended reading takes no more. `while`: how far a step goes, and whether it ends the reading, is known behind it.
    pub(crate) fn run(
        self,
        piece: &[u8],
        inputs: &mut [u32],
        outputs: &mut [u32],
        items: &mut [u32],
    ) -> TransactionDecoder
        requires { Starts self (tables inputs.old outputs.old items.old) }
        ensures { machine result (tables inputs.new outputs.new items.new) ≡ fed (machine self (tables inputs.old outputs.old items.old)) piece.now }
    {
        let mut d = self;
        let mut rest = piece;
        while !rest.is_empty() && d.field.stage < stages::FINISHED {
            let before = d.taken;
            d = d.advance(rest, inputs, outputs, items);
            rest = &rest[d.taken - before..];
        }
        d
    }
}
