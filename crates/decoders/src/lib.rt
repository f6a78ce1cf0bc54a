// The reader: `TransactionDecoder` with its fresh start, feeding and finishing, reading at once and the strict form.
#![tactic(auto)]

mod close;
mod compact;
mod entry;
mod feed;
mod prefix;
mod range;
mod records;
mod row;
mod settle;
mod settling;
mod stages;
mod state;
mod tables;

ghost use Rattle.std.specs.Prelude.{◌≡◌};
ghost use Rattle.decoders.specs.Machine.{machine};
ghost use Rattle.decoders.specs.Feeding.{tables, begun, out_of, pushed, ended, whole_of, read_once, read_strict};

pub use encode::{Refusal, RefusalKind};

// The field that is being gathered: its stage and form, its width in bytes, how many of them are there, and what they are worth. All numbers,
// stage and form too: stages.rt says why.
#[derive(Clone, Copy, Default)]
pub struct Field {
    pub stage: usize,
    pub form: usize,
    pub width: usize,
    pub have: usize,
    pub value: usize,
}

// How many numbers each lent table holds.
#[derive(Clone, Copy, PartialEq)]
pub struct Sizes {
    pub inputs: usize,
    pub outputs: usize,
    pub items: usize,
}

// The head numbers so far; items is the next item's number.
#[derive(Clone, Copy, Default, PartialEq, Eq)]
pub struct Counts {
    pub version: usize,
    pub flag: usize,
    pub inputs: usize,
    pub outputs: usize,
    pub items: usize,
    pub locktime: usize,
}

// Where the reading stands: the record's number, the items left in its stack, and what later fields need of earlier ones, each 0 or 1: stages.rt
// says why as numbers.
#[derive(Clone, Copy, Default, PartialEq, Eq)]
pub struct Spot {
    pub index: usize,
    pub left: usize,
    pub issuance: usize,
    pub null: usize,
    pub empty: usize,
}

// The reading state. docs/STATE.md gives each number's meaning and range.
#[derive(Clone, Copy)]
pub struct TransactionDecoder {
    pub field: Field,
    pub taken: usize,
    pub sizes: Sizes,
    pub counts: Counts,
    pub spot: Spot,
}

// One of the three lent tables.
#[derive(Clone, Copy)]
pub enum Table {
    Input,
    Output,
    Item,
}

// What goes into a table: a number with its place there, and the one behind it where two neighbours enter at once.
#[derive(Clone, Copy)]
pub struct Entered {
    pub table: Table,
    pub at: usize,
    pub number: usize,
    pub next: Option<usize>,
}

#[derive(Clone, Copy)]
pub struct Settled {
    pub decoder: TransactionDecoder,
    pub entered: Option<Entered>,
}

// Beside the tables, when a reading is finished.
#[derive(Clone, Copy)]
pub struct Head {
    pub version: u32,
    pub flag: u32,
    pub inputs: u32,
    pub outputs: u32,
    pub items: u32,
    pub locktime: u32,
    pub bytes: u32,
}

// Finished is answer 0; more wanted is a case by itself; a refusal has its kind and place. Not `Result<Option<Head>, Refusal>`: more wanted is
// no finished reading without a head, and 01 has three answers.
#[derive(Clone, Copy)]
pub enum Answer {
    Finished(Head),
    More,
    Refused(Refusal),
}

// What feeding and finishing hand back: the state, the bytes taken from the piece, the answer.
#[derive(Clone, Copy)]
pub struct Fed {
    pub decoder: TransactionDecoder,
    pub taken: usize,
    pub answer: Answer,
}

// What reading at once hands back.
#[derive(Clone, Copy)]
pub struct Read {
    pub taken: usize,
    pub answer: Answer,
}

impl TransactionDecoder {
    // A transaction's greatest length in bytes, and the numbers of an input, an output and an item record.
    pub const LIMIT: usize = 4000000;

    pub const INPUT_WIDTH: usize = 20;

    pub const OUTPUT_WIDTH: usize = 14;

    pub const ITEM_WIDTH: usize = 2;

    // The fresh start: every number of the lent tables is set to 0. Three slices, here and below: 01's form, and C lends them so; tables.rt has
    // what was tried within.
    pub fn new(inputs: &mut [u32], outputs: &mut [u32], items: &mut [u32]) -> TransactionDecoder
        ensures { machine result (tables inputs.new outputs.new items.new) ≡ begun (tables inputs.old outputs.old items.old) }
    {
        let sizes = Sizes::of(inputs, outputs, items);
        tables::zero_all(inputs, outputs, items);
        close::fresh(sizes)
    }

    // Feeds a piece. An ended reading takes no more and repeats its answer; 10 and 11 change nothing.
    pub fn push_bytes(
        mut self,
        piece: &[u8],
        inputs: &mut [u32],
        outputs: &mut [u32],
        items: &mut [u32],
    ) -> Fed
        ensures { out_of result (tables inputs.new outputs.new items.new) ≡ pushed self (tables inputs.old outputs.old items.old) piece.now }
    {
        if let Err(kind) = self.gate(Sizes::of(inputs, outputs, items)) {
            return self.misused(kind);
        }
        let before = self.taken;
        self = self.run(piece, inputs, outputs, items);
        let taken = self.taken.saturating_sub(before);
        self.close(taken, inputs, outputs, items)
    }

    // Finishes: 1 where more is wanted, else the answer again.
    pub fn end(mut self, inputs: &mut [u32], outputs: &mut [u32], items: &mut [u32]) -> Fed
        ensures { out_of result (tables inputs.new outputs.new items.new) ≡ ended self (tables inputs.old outputs.old items.old) }
    {
        if let Err(kind) = self.gate(Sizes::of(inputs, outputs, items)) {
            return self.misused(kind);
        }
        self = self.finish();
        self.close(0, inputs, outputs, items)
    }

    // Reads at once: fresh start, one piece, finish.
    pub fn read(piece: &[u8], inputs: &mut [u32], outputs: &mut [u32], items: &mut [u32]) -> Read
        ensures { whole_of result (tables inputs.new outputs.new items.new) ≡ read_once (tables inputs.old outputs.old items.old) piece.now }
    {
        let done = TransactionDecoder::through(piece, inputs, outputs, items);
        done.shown(inputs, outputs, items)
    }

    // The strict form: 9 where bytes follow a finished transaction.
    pub fn read_strict(
        piece: &[u8],
        inputs: &mut [u32],
        outputs: &mut [u32],
        items: &mut [u32],
    ) -> Read
        ensures { whole_of result (tables inputs.new outputs.new items.new) ≡ read_strict (tables inputs.old outputs.old items.old) piece.now }
    {
        let done = TransactionDecoder::through(piece, inputs, outputs, items);
        done.follow(piece.len()).shown(inputs, outputs, items)
    }
}
