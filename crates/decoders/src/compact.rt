// Counts and lengths: what follows their value.
ghost use Rattle.std.specs.Prelude.{◌≡◌};
ghost use Rattle.decoders.specs.Machine.{item_room, emptied, body_entered, body_seen, body_opened, length_settled, inputs_counted, outputs_counted, script_counted, pegin_counted, compact_settled};
ghost use Rattle.decoders.specs.Needs.{count_start, count_announces, count_long, count_settled};

use crate::settling::Settling;
use crate::{Entered, Field, Settled, TransactionDecoder, stages};
use encode::RefusalKind;

// A count or length, as its field stands.
impl Field {
    // Where it starts that is read so far: at its first byte.
    fn count_start(self, taken: usize) -> usize
        ensures { result ≡ count_start self.form self.width taken }
    {
        if self.form == stages::FURTHER {
            taken.saturating_sub(self.width).saturating_sub(1)
        } else {
            taken.saturating_sub(1)
        }
    }

    // A first byte that announces further ones.
    fn count_announces(self) -> bool
        ensures { result ≡ count_announces self.form self.value }
    {
        self.form != stages::FURTHER && 252 < self.value
    }

    // Further bytes that hold less than so many must.
    fn count_long(self) -> bool
        ensures { result ≡ count_long self.form self.width self.value }
    {
        self.form == stages::FURTHER && !encode::is_shortest(self.width, self.value)
    }
}

impl TransactionDecoder {
    // Whole item records, as many as a u32 can count.
    pub(crate) fn item_room(self) -> usize
        ensures { result ≡ item_room self }
    {
        (self.sizes.items / TransactionDecoder::ITEM_WIDTH).min(4294967295)
    }
}

impl Settling {
    pub(crate) fn emptied(mut self, n: usize) -> Settling
        ensures { result.decoder ≡ emptied n self.decoder }
    {
        if n == 0 {
            return self;
        }
        self.decoder.spot.empty = 0;
        self
    }

    // A body's position and length enter with its length's last byte. By the stage: see little_settled.
    pub(crate) fn body_entered(self, stage: usize, n: usize) -> Entered
        ensures { result ≡ body_entered stage n self.decoder }
    {
        let at = self.decoder.taken;
        match stage {
            stages::INPUT_SCRIPT => self.input(3, at, Some(n)),
            stages::OUTPUT_SCRIPT => self.output(8, at, n),
            stages::AMOUNT_PROOF => self.input(13, at, Some(n)),
            stages::KEYS_PROOF => self.input(15, at, Some(n)),
            stages::SCRIPT_ITEM | stages::PEGIN_ITEM => self.item(at, n),
            stages::SURJECTION_PROOF => self.output(10, at, n),
            _ => self.output(12, at, n),
        }
    }

    // A proof's length bears on whether the witnesses are empty.
    pub(crate) fn body_seen(self, stage: usize, n: usize) -> Settling
        ensures { result.decoder ≡ body_seen stage n self.decoder }
    {
        match stage {
            stages::AMOUNT_PROOF
            | stages::KEYS_PROOF
            | stages::SURJECTION_PROOF
            | stages::RANGE_PROOF => self.emptied(n),
            _ => self,
        }
    }

    // A body of length 0 is no field.
    pub(crate) fn body_opened(mut self, stage: usize, n: usize) -> TransactionDecoder
        ensures { result ≡ body_opened stage n self.decoder }
    {
        if n == 0 {
            self.body_ends(stage)
        } else {
            self.decoder.field = Field {
                stage,
                form: stages::OPAQUE,
                width: n,
                ..Field::default()
            };
            self.decoder
        }
    }

    // 2: the body would end past the limit, placed at its length's start.
    pub(crate) fn length_settled(self, stage: usize, start: usize, n: usize) -> Settled
        ensures { result ≡ length_settled stage start n self.decoder }
    {
        if n <= TransactionDecoder::LIMIT - self.decoder.taken {
            let entered = self.body_entered(stage, n);
            self.body_seen(stage, n)
                .body_opened(stage, n)
                .settled(entered)
        } else {
            self.decoder.refuse(RefusalKind::LimitPassed, start).quiet()
        }
    }

    // 4: the count exceeds the records left in its table. Each of the four counts meets a definition of its own (inputs_counted and so on, in
    // specs/Machine): they differ in the room, in what enters, and in what is opened, and share the test, the two stacks what is left.
    pub(crate) fn inputs_counted(mut self, start: usize, n: usize) -> Settled
        ensures { result ≡ inputs_counted start n self.decoder }
    {
        let room = self.decoder.sizes.inputs / TransactionDecoder::INPUT_WIDTH;
        if n <= room {
            self.decoder.counts.inputs = n;
            self.decoder.spot.index = 0;
            self.decoder.next_input().quiet()
        } else {
            self.decoder
                .refuse(RefusalKind::NoRecordLeft, start)
                .quiet()
        }
    }

    pub(crate) fn outputs_counted(mut self, start: usize, n: usize) -> Settled
        ensures { result ≡ outputs_counted start n self.decoder }
    {
        let room = self.decoder.sizes.outputs / TransactionDecoder::OUTPUT_WIDTH;
        if n <= room {
            self.decoder.counts.outputs = n;
            self.decoder.spot.index = 0;
            self.decoder.next_output().quiet()
        } else {
            self.decoder
                .refuse(RefusalKind::NoRecordLeft, start)
                .quiet()
        }
    }

    // The first item's index enters with the script count.
    pub(crate) fn script_counted(mut self, start: usize, n: usize) -> Settled
        ensures { result ≡ script_counted start n self.decoder }
    {
        let first = self.decoder.counts.items;
        let left = self.decoder.item_room().saturating_sub(first);
        if n <= left {
            let entered = self.input(17, first, Some(n));
            self.decoder.spot.left = n;
            self.emptied(n).decoder.next_script_item().settled(entered)
        } else {
            self.decoder
                .refuse(RefusalKind::NoRecordLeft, start)
                .quiet()
        }
    }

    pub(crate) fn pegin_counted(mut self, start: usize, n: usize) -> Settled
        ensures { result ≡ pegin_counted start n self.decoder }
    {
        let first = self.decoder.counts.items;
        let left = self.decoder.item_room().saturating_sub(first);
        if n <= left {
            let entered = self.input(19, n, None);
            self.decoder.spot.left = n;
            self.emptied(n).decoder.next_pegin_item().settled(entered)
        } else {
            self.decoder
                .refuse(RefusalKind::NoRecordLeft, start)
                .quiet()
        }
    }

    // Stage, start and n by themselves, here and in what it calls, as its definitions in specs/Machine take them.
    pub(crate) fn compact_settled(self, stage: usize, start: usize, n: usize) -> Settled
        ensures { result ≡ compact_settled stage start n self.decoder }
    {
        match stage {
            stages::INPUT_COUNT => self.inputs_counted(start, n),
            stages::OUTPUT_COUNT => self.outputs_counted(start, n),
            stages::SCRIPT_COUNT => self.script_counted(start, n),
            stages::PEGIN_COUNT => self.pegin_counted(start, n),
            _ => self.length_settled(stage, start, n),
        }
    }

    // A count or length, after its first byte or its further ones. 3: not in shortest form. One place alone calls compact_settled, so that
    // the compiler puts it there and the state needs no moving.
    pub(crate) fn count_settled(self) -> Settled
        ensures { result ≡ count_settled self.decoder.field.form self.decoder }
    {
        let field = self.decoder.field;
        let start = field.count_start(self.decoder.taken);
        if field.count_announces() {
            return self
                .decoder
                .opened(
                    start,
                    field.stage,
                    stages::FURTHER,
                    encode::announced(field.value),
                )
                .quiet();
        }
        if field.count_long() {
            return self.decoder.refuse(RefusalKind::NotShortest, start).quiet();
        }
        self.compact_settled(field.stage, start, field.value)
    }
}
