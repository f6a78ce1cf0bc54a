// The tables that a reading is lent, as a program's own.
ghost use Rattle.std.specs.Prelude.{◌≡◌, ◌&&◌, ◌==◌, replicate};
ghost use Rattle.std.specs.List.{list_all};
ghost use Rattle.decoders.specs.Machine.{machine};
ghost use Rattle.decoders.specs.Feeding.{tables, begun, out_of, pushed, ended, whole_of, read_once, read_strict};

use crate::MARK;
use decoders::{Answer, Fed, Read, TransactionDecoder};

// A longer table is shown by its last two records.
const SHOWN: usize = 100;

// So many numbers of inputs, outputs and items.
#[derive(Clone, Copy)]
pub struct Tables<const I: usize, const O: usize, const N: usize> {
    pub inputs: [u32; I],
    pub outputs: [u32; O],
    pub items: [u32; N],
}

// A name, and the numbers behind it, or so many of the last.
fn row(name: &[u8], t: &[u32], last: usize) {
    if t.len() <= SHOWN {
        crate::row(name, t);
        return;
    }
    crate::row(name, &t[t.len().saturating_sub(last)..]);
}

impl<const I: usize, const O: usize, const N: usize> Tables<I, O, N> {
    pub fn marked() -> Self
        ensures inputs { result.inputs ≡ replicate I 7 }
        ensures outputs { result.outputs ≡ replicate O 7 }
        ensures items { result.items ≡ replicate N 7 }
    {
        Tables {
            inputs: [MARK; I],
            outputs: [MARK; O],
            items: [MARK; N],
        }
    }

    pub fn mark(&mut self)
        ensures inputs { self.new.inputs ≡ replicate I 7 }
        ensures outputs { self.new.outputs ≡ replicate O 7 }
        ensures items { self.new.items ≡ replicate N 7 }
    {
        *self = Self::marked();
    }

    pub fn each_is(&self, m: u32) -> bool
        ensures { result ≡ (list_all (λ n. n == m) self.now.inputs && list_all (λ n. n == m) self.now.outputs && list_all (λ n. n == m) self.now.items) }
    {
        crate::all(&self.inputs, m) && crate::all(&self.outputs, m) && crate::all(&self.items, m)
    }

    // The answer, and: all tables 0, all tables as marked, or else their numbers.
    pub fn line(&self, answer: Answer, taken: usize) {
        crate::answer(answer, taken);
        if self.each_is(0) {
            crate::text(b", tables 0\n");
            return;
        }
        if self.each_is(MARK) {
            crate::text(b", tables untouched\n");
            return;
        }
        crate::text(b"\n");
        row(
            b"  inputs",
            &self.inputs,
            2 * TransactionDecoder::INPUT_WIDTH,
        );
        row(
            b"  outputs",
            &self.outputs,
            2 * TransactionDecoder::OUTPUT_WIDTH,
        );
        row(b"  items", &self.items, 2 * TransactionDecoder::ITEM_WIDTH);
    }

    // A fresh start on the tables as they are.
    pub fn start(&mut self) -> TransactionDecoder
        ensures { machine result (tables self.new.inputs self.new.outputs self.new.items) ≡ begun (tables self.old.inputs self.old.outputs self.old.items) }
    {
        TransactionDecoder::new(&mut self.inputs, &mut self.outputs, &mut self.items)
    }

    // A piece more.
    pub fn push(&mut self, d: TransactionDecoder, piece: &[u8]) -> Fed
        ensures { out_of result (tables self.new.inputs self.new.outputs self.new.items) ≡ pushed d (tables self.old.inputs self.old.outputs self.old.items) piece.now }
    {
        d.push_bytes(piece, &mut self.inputs, &mut self.outputs, &mut self.items)
    }

    pub fn end(&mut self, d: TransactionDecoder) -> Fed
        ensures { out_of result (tables self.new.inputs self.new.outputs self.new.items) ≡ ended d (tables self.old.inputs self.old.outputs self.old.items) }
    {
        d.end(&mut self.inputs, &mut self.outputs, &mut self.items)
    }

    // Reads at once, and strictly.
    pub fn read(&mut self, s: &[u8]) -> Read
        ensures { whole_of result (tables self.new.inputs self.new.outputs self.new.items) ≡ read_once (tables self.old.inputs self.old.outputs self.old.items) s.now }
    {
        TransactionDecoder::read(s, &mut self.inputs, &mut self.outputs, &mut self.items)
    }

    pub fn read_strict(&mut self, s: &[u8]) -> Read
        ensures { whole_of result (tables self.new.inputs self.new.outputs self.new.items) ≡ read_strict (tables self.old.inputs self.old.outputs self.old.items) s.now }
    {
        TransactionDecoder::read_strict(s, &mut self.inputs, &mut self.outputs, &mut self.items)
    }
}
