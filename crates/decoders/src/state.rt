// The ends of a reading, and opening the next field.
ghost use Rattle.std.specs.Prelude.{◌≡◌};
ghost use Rattle.encode.specs.Refusal.{number_of};
ghost use Rattle.decoders.specs.Machine.{refuse, finished, opened, number, compact, opaque};

use crate::{Counts, Field, Spot, TransactionDecoder, stages};
use encode::RefusalKind;

impl TransactionDecoder {
    // A refusal keeps the bytes taken and the sizes; its number and place stand in the field.
    pub(crate) fn refuse(self, kind: RefusalKind, place: usize) -> TransactionDecoder
        ensures { result ≡ refuse (number_of kind) place self }
    {
        TransactionDecoder {
            field: Field {
                stage: stages::REFUSED,
                have: place,
                value: kind.number(),
                ..Field::default()
            },
            taken: self.taken,
            sizes: self.sizes,
            counts: Counts::default(),
            spot: Spot::default(),
        }
    }

    // A finished reading keeps the head numbers, the bytes taken and the sizes.
    pub(crate) fn finished(mut self) -> TransactionDecoder
        ensures { result ≡ finished self }
    {
        self.field = Field {
            stage: stages::FINISHED,
            ..Field::default()
        };
        self.spot = Spot::default();
        self
    }

    // Number 2 is given before the field's first byte.
    pub(crate) fn opened(
        mut self,
        place: usize,
        stage: usize,
        form: usize,
        width: usize,
    ) -> TransactionDecoder
        ensures { result ≡ opened place stage form width self }
    {
        if self.taken.saturating_add(width) <= TransactionDecoder::LIMIT {
            self.field = Field {
                stage,
                form,
                width,
                ..Field::default()
            };
            self
        } else {
            self.refuse(RefusalKind::LimitPassed, place)
        }
    }

    pub(crate) fn number(self, stage: usize, width: usize) -> TransactionDecoder
        ensures { result ≡ number stage width self }
    {
        self.opened(self.taken, stage, stages::LITTLE, width)
    }

    pub(crate) fn compact(self, stage: usize) -> TransactionDecoder
        ensures { result ≡ compact stage self }
    {
        self.opened(self.taken, stage, stages::FIRST, 1)
    }

    pub(crate) fn opaque(self, stage: usize) -> TransactionDecoder
        ensures { result ≡ opaque stage self }
    {
        self.opened(self.taken, stage, stages::OPAQUE, 32)
    }
}
