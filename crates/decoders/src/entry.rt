// What a settled field enters: nothing, or one number or two neighbours of the present record.
ghost use Rattle.std.specs.Prelude.{◌≡◌, ◌+◌, ◌*◌, ◌≤◌};
ghost use Rattle.decoders.specs.declared.Table.TheVariants.{Input};
ghost use Rattle.decoders.specs.Machine.{quiet, settled, entered, output2, item2};

use crate::settling::Settling;
use crate::{Entered, Settled, Table, TransactionDecoder};

impl TransactionDecoder {
    pub(crate) fn settled(self, entered: Entered) -> Settled
        ensures { result ≡ settled self entered }
    {
        Settled {
            decoder: self,
            entered: Some(entered),
        }
    }

    pub(crate) fn quiet(self) -> Settled
        ensures { result ≡ quiet self }
    {
        Settled {
            decoder: self,
            entered: None,
        }
    }
}

impl Settling {
    // Three constructors of Entered and not one with the table and its width: `next` is there or not for an input, and always for the others, as
    // input1, input2, output2 and item2 of specs/Machine say, and an item's place is its number, not the record's.
    pub(crate) fn input(self, column: usize, number: usize, next: Option<usize>) -> Entered
        requires { column ≤ 19 }
        ensures { result ≡ entered Input (20 * self.decoder.spot.index + column) number next }
    {
        Entered {
            table: Table::Input,
            at: TransactionDecoder::INPUT_WIDTH * self.decoder.spot.index + column,
            number,
            next,
        }
    }

    pub(crate) fn output(self, column: usize, number: usize, next: usize) -> Entered
        requires { column ≤ 12 }
        ensures { result ≡ output2 column number next self.decoder }
    {
        Entered {
            table: Table::Output,
            at: TransactionDecoder::OUTPUT_WIDTH * self.decoder.spot.index + column,
            number,
            next: Some(next),
        }
    }

    pub(crate) fn item(self, number: usize, next: usize) -> Entered
        ensures { result ≡ item2 number next self.decoder }
    {
        Entered {
            table: Table::Item,
            at: TransactionDecoder::ITEM_WIDTH * self.decoder.counts.items,
            number,
            next: Some(next),
        }
    }
}
