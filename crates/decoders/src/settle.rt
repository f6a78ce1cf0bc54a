// What happens when a field's last byte is taken: one function for each stage, and the choice between them by form and stage.
ghost use Rattle.std.specs.Prelude.{◌≡◌, ◌-◌, ◌<◌, ◌≤◌};
ghost use Rattle.layout.specs.Transaction.{vout, flag_bit};
ghost use Rattle.decoders.specs.Machine.{sequence_next, locktime_next, version_settled, flag_settled, vout_settled, sequence_settled, amount_settled, keys_settled, asset_settled, value_settled, nonce_settled, locktime_settled, little_settled, big_settled, opaque_settled, settle, output2};

use crate::settling::Settling;
use crate::{Entered, Settled, TransactionDecoder, stages};
use encode::RefusalKind;

// Raw vout 0xffffffff stays so, with no flag. Otherwise bit 30 is the pegin flag, bit 31 the issuance flag, both cleared in vout.
pub(crate) fn vout(raw: usize) -> usize
    ensures { result ≡ vout raw }
{
    if raw == 0xffff_ffff {
        raw
    } else {
        raw & 0x3fff_ffff
    }
}

pub(crate) fn flag_bit(bit: u32, raw: usize) -> usize
    requires { bit < 32 }
    ensures { result ≡ flag_bit bit raw }
{
    if raw == 0xffff_ffff {
        0
    } else {
        (raw >> bit) & 1
    }
}

impl Settling {
    pub(crate) fn sequence_next(self) -> TransactionDecoder
        ensures { result ≡ sequence_next self.decoder }
    {
        if self.decoder.spot.issuance == 1 {
            self.decoder.opaque(stages::BLINDING_NONCE)
        } else {
            self.input_ends()
        }
    }

    // The flag is judged here, after the locktime. 7: witness flag above 1.
    pub(crate) fn locktime_next(mut self) -> TransactionDecoder
        ensures { result ≡ locktime_next self.decoder }
    {
        if self.decoder.counts.flag == 0 {
            self.decoder.finished()
        } else if self.decoder.counts.flag == 1 {
            self.decoder.spot.index = 0;
            self.decoder.spot.empty = 1;
            self.decoder.next_input_witness()
        } else {
            self.decoder.refuse(RefusalKind::BadFlag, 4)
        }
    }

    pub(crate) fn version_settled(mut self) -> Settled
        ensures { result ≡ version_settled self.decoder }
    {
        self.decoder.counts.version = self.decoder.field.value;
        self.decoder.number(stages::FLAG, 1).quiet()
    }

    pub(crate) fn flag_settled(mut self) -> Settled
        ensures { result ≡ flag_settled self.decoder }
    {
        self.decoder.counts.flag = self.decoder.field.value;
        self.decoder.compact(stages::INPUT_COUNT).quiet()
    }

    pub(crate) fn vout_settled(mut self) -> Settled
        ensures { result ≡ vout_settled self.decoder }
    {
        let raw = self.decoder.field.value;
        let issuance = flag_bit(31, raw);
        let both = flag_bit(30, raw) + 2 * issuance;
        let entered = self.input(1, vout(raw), Some(both));
        self.decoder.spot.issuance = issuance;
        self.decoder.compact(stages::INPUT_SCRIPT).settled(entered)
    }

    // This one, amount_settled and keys_settled differ in the column and in the step behind it, as asset_settled, value_settled and nonce_settled do: as
    // one, each arm of little_settled would hand over a closure of the step, and each meets a definition of specs/Machine by its name.
    pub(crate) fn sequence_settled(self) -> Settled
        ensures { result ≡ sequence_settled self.decoder }
    {
        let entered = self.input(5, self.decoder.field.value, None);
        self.sequence_next().settled(entered)
    }

    pub(crate) fn amount_settled(self) -> Settled
        ensures { result ≡ amount_settled self.decoder }
    {
        let entered = self.input(7, self.decoder.field.value, None);
        self.amount_next().settled(entered)
    }

    pub(crate) fn keys_settled(self) -> Settled
        ensures { result ≡ keys_settled self.decoder }
    {
        let entered = self.input(10, self.decoder.field.value, None);
        self.keys_next().settled(entered)
    }

    // An output's prefix, with its position.
    fn prefix_entered(self, column: usize) -> Entered
        requires { column ≤ 12 }
        ensures { result ≡ output2 column self.decoder.field.value (self.decoder.taken - 1) self.decoder }
    {
        self.output(
            column,
            self.decoder.field.value,
            self.decoder.taken.saturating_sub(1),
        )
    }

    pub(crate) fn asset_settled(self) -> Settled
        ensures { result ≡ asset_settled self.decoder }
    {
        let entered = self.prefix_entered(0);
        self.asset_next().settled(entered)
    }

    pub(crate) fn value_settled(self) -> Settled
        ensures { result ≡ value_settled self.decoder }
    {
        let entered = self.prefix_entered(2);
        self.value_next().settled(entered)
    }

    pub(crate) fn nonce_settled(self) -> Settled
        ensures { result ≡ nonce_settled self.decoder }
    {
        let entered = self.prefix_entered(6);
        self.nonce_next().settled(entered)
    }

    pub(crate) fn locktime_settled(mut self) -> Settled
        ensures { result ≡ locktime_settled self.decoder }
    {
        self.decoder.counts.locktime = self.decoder.field.value;
        self.locktime_next().quiet()
    }

    // By the stage, here and wherever a step is chosen: a number of the plain state, which C hands back and anyone can forge (01), holds no closure.
    pub(crate) fn little_settled(self, stage: usize) -> Settled
        ensures { result ≡ little_settled stage self.decoder }
    {
        match stage {
            stages::VERSION => self.version_settled(),
            stages::FLAG => self.flag_settled(),
            stages::VOUT => self.vout_settled(),
            stages::SEQUENCE => self.sequence_settled(),
            stages::ISSUANCE_AMOUNT => self.amount_settled(),
            stages::INFLATION_KEYS => self.keys_settled(),
            stages::ASSET => self.asset_settled(),
            stages::VALUE => self.value_settled(),
            stages::NONCE => self.nonce_settled(),
            _ => self.locktime_settled(),
        }
    }

    // An explicit amount enters as two numbers, high and low.
    pub(crate) fn big_settled(self, stage: usize) -> Settled
        ensures { result ≡ big_settled stage self.decoder }
    {
        let high = self.decoder.field.value / 4294967296;
        let low = self.decoder.field.value % 4294967296;
        match stage {
            stages::ISSUANCE_AMOUNT => {
                let entered = self.input(8, high, Some(low));
                self.decoder
                    .number(stages::INFLATION_KEYS, 1)
                    .settled(entered)
            }
            stages::INFLATION_KEYS => {
                let entered = self.input(11, high, Some(low));
                self.input_ends().settled(entered)
            }
            _ => {
                let entered = self.output(4, high, low);
                self.decoder.number(stages::NONCE, 1).settled(entered)
            }
        }
    }

    // A txid and a blinding nonce enter by their position.
    pub(crate) fn opaque_settled(self, stage: usize) -> Settled
        ensures { result ≡ opaque_settled stage self.decoder }
    {
        let at = self.decoder.taken.saturating_sub(32);
        match stage {
            stages::TXID => {
                let entered = self.input(0, at, None);
                self.decoder.number(stages::VOUT, 4).settled(entered)
            }
            stages::BLINDING_NONCE => {
                let entered = self.input(6, at, None);
                self.decoder.opaque(stages::ENTROPY).settled(entered)
            }
            stages::ENTROPY => self.decoder.number(stages::ISSUANCE_AMOUNT, 1).quiet(),
            stages::ISSUANCE_AMOUNT => self.decoder.number(stages::INFLATION_KEYS, 1).quiet(),
            stages::INFLATION_KEYS => self.input_ends().quiet(),
            stages::ASSET => self.decoder.number(stages::VALUE, 1).quiet(),
            stages::VALUE => self.decoder.number(stages::NONCE, 1).quiet(),
            stages::NONCE => self.decoder.compact(stages::OUTPUT_SCRIPT).quiet(),
            _ => self.body_ends(stage).quiet(),
        }
    }

    pub(crate) fn settle(self) -> Settled
        ensures { result ≡ settle self.decoder }
    {
        let form = self.decoder.field.form;
        let stage = self.decoder.field.stage;
        if form <= stages::FIRST {
            return self.count_settled();
        }
        match form {
            stages::OPAQUE => self.opaque_settled(stage),
            stages::LITTLE => self.little_settled(stage),
            _ => self.big_settled(stage),
        }
    }
}
