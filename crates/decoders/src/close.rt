// Where a call starts and ends: the gate, the answer, and the tables of a refused reading.
ghost use Rattle.std.specs.Prelude.{◌≡◌};
ghost use Rattle.decoders.specs.Machine.{answer_of, fresh, machine};
ghost use Rattle.decoders.specs.Feeding.{told, tables, sizes_of, out_of, whole_of, finish, follow, closed};
ghost use Rattle.decoders.specs.Needs.{head_told, misused, Headed, Closes, Gated, through, outcome_of};

use crate::{
    Answer, Counts, Fed, Field, Head, Read, RefusalKind, Sizes, Spot, TransactionDecoder, stages,
    tables,
};

impl Sizes {
    pub(crate) fn of(inputs: &[u32], outputs: &[u32], items: &[u32]) -> Sizes
        ensures { result ≡ sizes_of (tables inputs.now outputs.now items.now) }
    {
        Sizes {
            inputs: inputs.len(),
            outputs: outputs.len(),
            items: items.len(),
        }
    }
}

pub(crate) fn fresh(sizes: Sizes) -> TransactionDecoder
    ensures { result ≡ fresh sizes }
{
    TransactionDecoder {
        field: Field {
            stage: stages::VERSION,
            form: stages::LITTLE,
            width: 4,
            ..Field::default()
        },
        taken: 0,
        sizes,
        counts: Counts::default(),
        spot: Spot::default(),
    }
}

impl TransactionDecoder {
    // A misuse is refused: 11 before 10.
    pub(crate) fn gate(self, lent: Sizes) -> Result<(), RefusalKind>
        ensures { Gated self lent result }
    {
        if !self.in_range() {
            return Err(RefusalKind::StateForged);
        }
        if self.sizes == lent {
            Ok(())
        } else {
            Err(RefusalKind::TablesDiffer)
        }
    }

    // A misuse takes nothing and leaves the state; its place is 0.
    pub(crate) fn misused(self, kind: RefusalKind) -> Fed
        ensures { result ≡ misused kind self }
    {
        Fed {
            decoder: self,
            taken: 0,
            answer: Answer::Refused(kind.at(0)),
        }
    }

    // The head numbers of a finished reading.
    pub(crate) fn head(self) -> Head
        requires { Headed self }
        ensures { result ≡ head_told self }
    {
        Head {
            version: self.counts.version as u32,
            flag: self.counts.flag as u32,
            inputs: self.counts.inputs as u32,
            outputs: self.counts.outputs as u32,
            items: self.counts.items as u32,
            locktime: self.counts.locktime as u32,
            bytes: self.taken as u32,
        }
    }

    // `Closes` stands here, in `close` and in `shown`: as a type it would be made in push_bytes, end, read and read_strict, four places for three
    // clauses, and opened again, since the plain state is handed back.
    pub(crate) fn answer(self) -> Answer
        requires { Closes self }
        ensures { told result ≡ answer_of self }
    {
        if self.field.stage == stages::FINISHED {
            Answer::Finished(self.head())
        } else if self.field.stage == stages::REFUSED {
            let Ok(kind) = RefusalKind::try_from(self.field.value) else {
                unreachable!()
            };
            Answer::Refused(kind.at(self.field.have))
        } else {
            Answer::More
        }
    }

    // Finishing a reading that wants more gives refusal 1.
    pub(crate) fn finish(self) -> TransactionDecoder
        ensures { result ≡ finish self }
    {
        if stages::FINISHED <= self.field.stage {
            self
        } else {
            let place = self.taken;
            self.refuse(RefusalKind::EndsEarly, place)
        }
    }

    // The strict form adds refusal 9: bytes follow a finished reading.
    pub(crate) fn follow(self, there: usize) -> TransactionDecoder
        ensures { result ≡ follow there self }
    {
        let taken = self.taken;
        if self.field.stage == stages::FINISHED {
            if taken < there {
                self.refuse(RefusalKind::BytesFollow, taken)
            } else {
                self
            }
        } else {
            self
        }
    }

    // A refused reading's tables are set to 0, with each call.
    pub(crate) fn close(
        self,
        taken: usize,
        inputs: &mut [u32],
        outputs: &mut [u32],
        items: &mut [u32],
    ) -> Fed
        requires { Closes self }
        ensures { out_of result (tables inputs.new outputs.new items.new) ≡ closed self taken (tables inputs.old outputs.old items.old) }
    {
        let answer = self.answer();
        if self.field.stage == stages::REFUSED {
            tables::zero_all(inputs, outputs, items);
        }
        Fed {
            decoder: self,
            taken,
            answer,
        }
    }

    // A fresh start, fed one piece and finished.
    pub(crate) fn through(
        piece: &[u8],
        inputs: &mut [u32],
        outputs: &mut [u32],
        items: &mut [u32],
    ) -> TransactionDecoder
        ensures { machine result (tables inputs.new outputs.new items.new) ≡ through (tables inputs.old outputs.old items.old) piece.now }
    {
        TransactionDecoder::new(inputs, outputs, items)
            .run(piece, inputs, outputs, items)
            .finish()
    }

    // What reading at once hands back.
    pub(crate) fn shown(self, inputs: &mut [u32], outputs: &mut [u32], items: &mut [u32]) -> Read
        requires { Closes self }
        ensures { whole_of result (tables inputs.new outputs.new items.new) ≡ outcome_of (closed self self.taken (tables inputs.old outputs.old items.old)) }
    {
        let fed = self.close(self.taken, inputs, outputs, items);
        Read {
            taken: fed.taken,
            answer: fed.answer,
        }
    }
}
