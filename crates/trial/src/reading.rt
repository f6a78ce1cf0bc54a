// A reading in pieces, with its tables.
ghost use Rattle.std.specs.Prelude.{◌≡◌, ◌<◌, ◌≤◌, replicate};
ghost use Rattle.decoders.specs.Feeding.{tables, begun, out_of, pushed, ended};
ghost use Rattle.trial.specs.Adding.{added, behind, unfed, fresh_of};

use crate::Tables;
use decoders::{Answer, Fed, TransactionDecoder};

// The tables, and what the last call handed back; the bytes taken add up.
#[derive(Clone, Copy)]
pub struct Reading<const I: usize, const O: usize, const N: usize> {
    pub tables: Tables<I, O, N>,
    pub fed: Fed,
}

// How many of the bytes left the next piece has; size 0: all, and no Option, since the programs try 0, 1 and a step in one list.
fn piece_of(size: usize, left: usize) -> usize
    requires { 0 < left }
    ensures some { 0 < result }
    ensures there { result ≤ left }
{
    if size == 0 { left } else { size.min(left) }
}

// A fresh start, with nothing taken.
fn started(d: TransactionDecoder) -> Fed
    ensures { result ≡ unfed d }
{
    Fed {
        decoder: d,
        taken: 0,
        answer: Answer::More,
    }
}

impl<const I: usize, const O: usize, const N: usize> Reading<I, O, N> {
    // A fresh start on marked tables.
    pub fn new() -> Self
        ensures { out_of result.fed (tables result.tables.inputs result.tables.outputs result.tables.items) ≡ fresh_of (begun (tables (replicate I 7) (replicate O 7) (replicate N 7))) }
    {
        Self::on(Tables::marked())
    }

    // A fresh start on the tables as they are.
    pub fn on(start: Tables<I, O, N>) -> Self
        ensures { out_of result.fed (tables result.tables.inputs result.tables.outputs result.tables.items) ≡ fresh_of (begun (tables start.entry.inputs start.entry.outputs start.entry.items)) }
    {
        let mut tables = start;
        let d = tables.start();
        let fed = started(d);
        Reading { tables, fed }
    }

    // Marks the tables, and starts again.
    pub fn again(&mut self)
        ensures { out_of self.new.fed (tables self.new.tables.inputs self.new.tables.outputs self.new.tables.items) ≡ fresh_of (begun (tables (replicate I 7) (replicate O 7) (replicate N 7))) }
    {
        self.tables.mark();
        let d = self.tables.start();
        self.fed = started(d);
    }

    // After a call: its state and answer, and its bytes beside those taken before.
    fn after(&mut self, g: Fed)
        ensures fed { self.new.fed ≡ added self.old.fed.taken g }
        ensures tables { self.new.tables ≡ self.old.tables }
    {
        let taken = self.fed.taken.wrapping_add(g.taken);
        self.fed = Fed { taken, ..g };
    }

    // A piece more.
    pub fn feed(&mut self, piece: &[u8])
        ensures { out_of self.new.fed (tables self.new.tables.inputs self.new.tables.outputs self.new.tables.items) ≡ behind self.old.fed.taken (pushed self.old.fed.decoder (tables self.old.tables.inputs self.old.tables.outputs self.old.tables.items) piece.now) }
    {
        let d = self.fed.decoder;
        let g = self.tables.push(d, piece);
        self.after(g);
    }

    pub fn finish(&mut self)
        ensures { out_of self.new.fed (tables self.new.tables.inputs self.new.tables.outputs self.new.tables.items) ≡ behind self.old.fed.taken (ended self.old.fed.decoder (tables self.old.tables.inputs self.old.tables.outputs self.old.tables.items)) }
    {
        let d = self.fed.decoder;
        let g = self.tables.end(d);
        self.after(g);
    }

    // Bytes in pieces: the first of `size`, 0 for one piece, and each `more` longer than the one before it.
    pub fn pour(&mut self, s: &[u8], size: usize, more: usize) {
        let mut rest = s;
        let mut next = size;
        // by hand: each piece may be longer than the one before it, and `chunks` has one size
        while !rest.is_empty() {
            let (piece, behind) = rest.split_at(piece_of(next, rest.len()));
            self.feed(piece);
            rest = behind;
            next = next.wrapping_add(more);
        }
    }

    // So many bytes, from one buffer again and again.
    pub fn flood(&mut self, buffer: &[u8], count: usize) {
        let n = buffer.len();
        if n == 0 {
            return;
        }
        for _ in 0..count / n {
            self.feed(buffer);
        }
        self.feed(&buffer[..count % n]);
    }

    // Fresh start on marked tables, pieces of one size, finish.
    pub fn read(&mut self, s: &[u8], size: usize) {
        self.again();
        self.pour(s, size, 0);
        self.finish();
    }

    // The same of a head in one piece, so many bytes from a buffer, and a tail in one piece.
    pub fn long(&mut self, head: &[u8], buffer: &[u8], count: usize, tail: &[u8]) {
        self.again();
        self.feed(head);
        self.flood(buffer, count);
        self.feed(tail);
        self.finish();
    }

    pub fn line(&self) {
        self.tables.line(self.fed.answer, self.fed.taken);
    }

    // Reads, and shows the line.
    pub fn whole(&mut self, s: &[u8], size: usize) {
        self.read(s, size);
        self.line();
    }
}
