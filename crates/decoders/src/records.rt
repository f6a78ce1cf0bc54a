// What follows a record, an item, a body.
ghost use Rattle.std.specs.Prelude.{◌≡◌};
ghost use Rattle.decoders.specs.Machine.{next_input, next_output, witnesses_end, next_output_witness, next_input_witness, next_script_item, next_pegin_item, further, further_input, item_ends, body_ends, Counted};

use crate::settling::Settling;
use crate::{TransactionDecoder, stages};
use encode::RefusalKind;

impl TransactionDecoder {
    pub(crate) fn next_input(self) -> TransactionDecoder
        ensures { result ≡ next_input self }
    {
        if self.spot.index < self.counts.inputs {
            self.opaque(stages::TXID)
        } else {
            self.compact(stages::OUTPUT_COUNT)
        }
    }

    pub(crate) fn next_output(self) -> TransactionDecoder
        ensures { result ≡ next_output self }
    {
        if self.spot.index < self.counts.outputs {
            self.number(stages::ASSET, 1)
        } else {
            self.number(stages::LOCKTIME, 4)
        }
    }

    // 8: flag 1, all witnesses empty.
    pub(crate) fn witnesses_end(self) -> TransactionDecoder
        ensures { result ≡ witnesses_end self }
    {
        if self.spot.empty == 1 {
            self.refuse(RefusalKind::EmptyWitnesses, 4)
        } else {
            self.finished()
        }
    }

    pub(crate) fn next_output_witness(self) -> TransactionDecoder
        ensures { result ≡ next_output_witness self }
    {
        if self.spot.index < self.counts.outputs {
            self.compact(stages::SURJECTION_PROOF)
        } else {
            self.witnesses_end()
        }
    }

    pub(crate) fn next_input_witness(mut self) -> TransactionDecoder
        ensures { result ≡ next_input_witness self }
    {
        if self.spot.index < self.counts.inputs {
            self.compact(stages::AMOUNT_PROOF)
        } else {
            self.spot.index = 0;
            self.next_output_witness()
        }
    }

    pub(crate) fn next_script_item(self) -> TransactionDecoder
        ensures { result ≡ next_script_item self }
    {
        if 0 < self.spot.left {
            self.compact(stages::SCRIPT_ITEM)
        } else {
            self.compact(stages::PEGIN_COUNT)
        }
    }

    pub(crate) fn next_pegin_item(mut self) -> TransactionDecoder
        requires { Counted self }
        ensures { result ≡ next_pegin_item self }
    {
        if 0 < self.spot.left {
            self.compact(stages::PEGIN_ITEM)
        } else {
            self.spot.index += 1;
            self.next_input_witness()
        }
    }
}

impl Settling {
    // After an input: the next one, or the outputs. Nothing is kept of its issuance.
    pub(crate) fn input_ends(mut self) -> TransactionDecoder
        ensures { result ≡ next_input (further_input self.decoder) }
    {
        self.decoder.spot.index += 1;
        self.decoder.spot.issuance = 0;
        self.decoder.spot.null = 0;
        self.decoder.next_input()
    }

    // What ends in two ways is two functions: as one, `further` or `item_ends`, that hands the state back to go on with, it copies the state once
    // more, and reading at once takes 13,501 instructions in place of 12,587.
    pub(crate) fn output_ends(mut self) -> TransactionDecoder
        ensures { result ≡ next_output (further self.decoder) }
    {
        self.decoder.spot.index += 1;
        self.decoder.next_output()
    }

    pub(crate) fn output_witness_ends(mut self) -> TransactionDecoder
        ensures { result ≡ next_output_witness (further self.decoder) }
    {
        self.decoder.spot.index += 1;
        self.decoder.next_output_witness()
    }

    pub(crate) fn script_item_ends(mut self) -> TransactionDecoder
        ensures { result ≡ next_script_item (item_ends self.decoder) }
    {
        self.decoder.counts.items += 1;
        self.decoder.spot.left = self.decoder.spot.left.saturating_sub(1);
        self.decoder.next_script_item()
    }

    pub(crate) fn pegin_item_ends(mut self) -> TransactionDecoder
        ensures { result ≡ next_pegin_item (item_ends self.decoder) }
    {
        self.decoder.counts.items += 1;
        self.decoder.spot.left = self.decoder.spot.left.saturating_sub(1);
        self.decoder.next_pegin_item()
    }

    // By the body's stage: see little_settled.
    pub(crate) fn body_ends(self, stage: usize) -> TransactionDecoder
        ensures { result ≡ body_ends stage self.decoder }
    {
        match stage {
            stages::INPUT_SCRIPT => self.decoder.number(stages::SEQUENCE, 4),
            stages::OUTPUT_SCRIPT => self.output_ends(),
            stages::AMOUNT_PROOF => self.decoder.compact(stages::KEYS_PROOF),
            stages::KEYS_PROOF => self.decoder.compact(stages::SCRIPT_COUNT),
            stages::SCRIPT_ITEM => self.script_item_ends(),
            stages::PEGIN_ITEM => self.pegin_item_ends(),
            stages::SURJECTION_PROOF => self.decoder.compact(stages::RANGE_PROOF),
            _ => self.output_witness_ends(),
        }
    }
}
