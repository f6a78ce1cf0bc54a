// Values, assets and nonces: the prefix, and what it announces.
ghost use Rattle.std.specs.Prelude.{◌≡◌};
ghost use Rattle.decoders.specs.Machine.{part, part_next, amount_next, null_keys_next, keys_next, asset_next, value_next, nonce_next};

use crate::settling::Settling;
use crate::{TransactionDecoder, stages};
use confidential::{Asset, Confidential, Nonce, Value};
use encode::RefusalKind;

impl Settling {
    // By the width, as specs/Machine: part. 9 is an explicit value, with a number of 8 bytes; 33 has 32 bytes that are never looked at. 5: prefix
    // not listed.
    fn part<K: Confidential>(self) -> TransactionDecoder
        ensures { result ≡ part (K.width self.decoder.field.value) self.decoder }
    {
        let stage = self.decoder.field.stage;
        let at = self.decoder.taken;
        match confidential::width::<K>(self.decoder.field.value) {
            Some(9) => self.decoder.opened(at, stage, stages::BIG, 8),
            Some(33) => self.decoder.opaque(stage),
            _ => {
                let place = at.saturating_sub(1);
                self.decoder.refuse(RefusalKind::BadPrefix, place)
            }
        }
    }

    // Behind a null one the next field begins.
    fn part_next<K: Confidential>(self, stage: usize, form: usize) -> TransactionDecoder
        ensures { result ≡ part_next (K.width self.decoder.field.value) stage form self.decoder }
    {
        if self.decoder.field.value == 0 {
            let place = self.decoder.taken;
            self.decoder.opened(place, stage, form, 1)
        } else {
            self.part::<K>()
        }
    }

    // Whether an issuance's amount is null is kept for its keys.
    pub(crate) fn amount_next(mut self) -> TransactionDecoder
        ensures { result ≡ amount_next self.decoder }
    {
        self.decoder.spot.null = usize::from(self.decoder.field.value == 0);
        self.part_next::<Value>(stages::INFLATION_KEYS, stages::LITTLE)
    }

    // 6: a null issuance, placed at its start, 66 bytes back.
    pub(crate) fn null_keys_next(self) -> TransactionDecoder
        ensures { result ≡ null_keys_next self.decoder }
    {
        if self.decoder.spot.null == 1 {
            let place = self.decoder.taken.saturating_sub(66);
            self.decoder.refuse(RefusalKind::NullIssuance, place)
        } else {
            self.input_ends()
        }
    }

    pub(crate) fn keys_next(self) -> TransactionDecoder
        ensures { result ≡ keys_next self.decoder }
    {
        if self.decoder.field.value == 0 {
            self.null_keys_next()
        } else {
            self.part::<Value>()
        }
    }

    pub(crate) fn asset_next(self) -> TransactionDecoder
        ensures { result ≡ asset_next self.decoder }
    {
        self.part_next::<Asset>(stages::VALUE, stages::LITTLE)
    }

    pub(crate) fn value_next(self) -> TransactionDecoder
        ensures { result ≡ value_next self.decoder }
    {
        self.part_next::<Value>(stages::NONCE, stages::LITTLE)
    }

    pub(crate) fn nonce_next(self) -> TransactionDecoder
        ensures { result ≡ nonce_next self.decoder }
    {
        self.part_next::<Nonce>(stages::OUTPUT_SCRIPT, stages::FIRST)
    }
}
