// The range test of refusal 11. A caller can hand in any numbers, so no sum or difference here relies on a state being right.
// docs/STATE.md has the test as tables, specs/Range.antt as definitions: the same rows, one a stage.
ghost use Rattle.std.specs.Prelude.{◌≡◌, cond, ◌&&◌, ◌+◌, ◌*◌, ◌≤◌};
ghost use Rattle.layout.specs.Transaction.{limit};
ghost use Rattle.decoders.specs.Range as range;
ghost use Rattle.decoders.specs.Range.{shape_fits, field_range, among_inputs, among_outputs, among_witnesses, in_opening, unwitnessed, input_numbers, in_input, inputs_numbers, behind_inputs, output_numbers, in_output, outputs_numbers, behind_outputs, witness_numbers, input_witness_numbers, in_input_witness, stack_numbers, in_stack, output_witness_numbers, in_output_witness, ended_range, whole_fits, whole_range, refused_range, placed_fits, in_range};
ghost use Rattle.decoders.specs.Needs.{Sized, Endable, Numbered};

use crate::row::{GREATEST_U32, Kind, Places, Row, size};
use crate::{Counts, Spot, TransactionDecoder, feed, stages};
use encode::RefusalKind;

// The greatest value of spot.empty with a field of this form.
fn dark(form: usize) -> usize
    ensures { Sized 1 result (range.dark form) }
{
    if form == stages::OPAQUE { 0 } else { 1 }
}

impl TransactionDecoder {
    // A field's form and width are of what the stage reads. Further bytes are 2, 4 or 8.
    fn shape_fits(self, kind: Kind) -> bool
        ensures { result ≡ shape_fits kind self }
    {
        let form = self.field.form;
        let width = self.field.width;
        kind.forms().contains(&form)
            && kind.widths(form).contains(&width)
            && (form != stages::FURTHER || matches!(width, 2 | 4 | 8))
    }

    // The field that is open: some of its bytes, not all, are there.
    #[tactic(auto, using(crate::proofs::Ranges::number_short), unfolding(crate::specs::Range::field_range))]
    pub(crate) fn field_range(self, kind: Kind) -> bool
        ensures { result ≡ field_range kind self }
    {
        let value = self.field.value;
        self.shape_fits(kind)
            && self.field.have < self.field.width
            && if self.field.form == stages::OPAQUE {
                value == 0
            } else {
                value < feed::power(self.field.have)
            }
    }

    // ---- where the field lies

    // The bytes of the open field that were read before its present part.
    fn own(self, kind: Kind) -> usize
        ensures { Sized 9 result (range.own kind self) }
    {
        kind.own_bytes(self.field.form, self.field.width)
    }

    // Behind so many bytes of other fields at least, and within the limit.
    fn lies(self, kind: Kind, least: usize) -> bool
        requires { least ≤ 8000000000 }
        ensures { result ≡ range.lies kind least self }
    {
        let start = self.taken.saturating_sub(self.field.have);
        let last = TransactionDecoder::LIMIT.saturating_sub(self.field.width);
        let own = self.own(kind);
        (self.field.have <= self.taken) & (least + own <= start) & (start <= last)
    }

    // And behind no more than so many where nothing of free length was read.
    #[tactic(auto, unfolding(crate::specs::Range::exact))]
    fn exact(self, kind: Kind, least: usize, slack: usize, free: usize) -> bool
        requires { least + slack + limit * free ≤ 40000000000000 }
        ensures { result ≡ range.exact kind least slack free self }
    {
        // written out: tried as `lies` and a test more, a call of `push_bytes` takes 60 instructions more of 561, and with hints on inlining 14
        let start = self.taken.saturating_sub(self.field.have);
        let last = TransactionDecoder::LIMIT.saturating_sub(self.field.width);
        let low = least + self.own(kind);
        (self.field.have <= self.taken)
            & (low <= start)
            & (start <= last)
            & (start <= low + slack + TransactionDecoder::LIMIT * free)
    }

    #[tactic(auto, unfolding(crate::specs::Range::among_inputs))]
    fn among_inputs(self, row: Row, scripts: usize) -> bool
        requires scripts_bound { scripts ≤ 1 }
        requires index_le_limit { self.spot.index ≤ limit }
        requires null_bound { self.spot.null ≤ 1 }
        ensures { result ≡ among_inputs row.kind row.before scripts self }
    {
        let single = row.before.saturating_sub(8 * self.spot.null);
        let count = size(self.counts.inputs);
        self.exact(
            row.kind,
            single + count + 41 * self.spot.index,
            0,
            self.spot.index + scripts,
        )
    }

    #[tactic(auto, unfolding(crate::specs::Range::among_outputs))]
    fn among_outputs(self, row: Row, slack: usize) -> bool
        requires slack_bound { slack ≤ 96 }
        requires inputs_le_limit { self.counts.inputs ≤ limit }
        requires index_le_limit { self.spot.index ≤ limit }
        ensures { result ≡ among_outputs row.kind row.before slack self }
    {
        let counts = size(self.counts.inputs) + size(self.counts.outputs);
        let least = row.before + counts + 41 * self.counts.inputs + 4 * self.spot.index;
        self.exact(row.kind, least, slack, self.counts.inputs + self.spot.index)
    }

    // What all inputs and outputs have with their counts.
    fn body(self) -> usize
        requires inputs_le_limit { self.counts.inputs ≤ limit }
        requires outputs_le_limit { self.counts.outputs ≤ limit }
        ensures { Sized 180000018 result (range.body self) }
    {
        let inputs = size(self.counts.inputs);
        let outputs = size(self.counts.outputs);
        inputs + outputs + 41 * self.counts.inputs + 4 * self.counts.outputs
    }

    #[tactic(auto, unfolding(crate::specs::Range::among_witnesses))]
    fn among_witnesses(self, kind: Kind, least: usize, stacks: usize, seen: usize) -> bool
        requires least_bound { least ≤ 400000000 }
        requires stacks_bound { stacks ≤ 4000001 }
        requires seen_bound { seen ≤ 8000001 }
        requires counts_bound { self.counts.items ≤ 4294967295 }
        requires empty_bound { self.spot.empty ≤ 1 }
        ensures { result ≡ among_witnesses kind least stacks seen self }
    {
        let start = self.taken.saturating_sub(self.field.have);
        let last = TransactionDecoder::LIMIT.saturating_sub(self.field.width);
        let low = least + self.own(kind);
        let dark = dark(self.field.form);
        let light = dark.saturating_sub(self.spot.empty);
        (self.field.have <= self.taken)
            & (low + self.counts.items <= start)
            & (start <= last)
            & (low + light <= start)
            & (self.counts.items + TransactionDecoder::LIMIT * self.spot.empty
                <= TransactionDecoder::LIMIT)
            & (self.counts.items <= TransactionDecoder::LIMIT * stacks)
            & (self.spot.empty <= dark)
            & (dark <= self.spot.empty + seen)
    }

    // ---- the rows

    // Stages 0 to 2: nothing of free length was read, so the bytes taken are known. Inlined, so that the kind is known: an empty piece then takes
    // a ninth fewer instructions.
    #[inline(always)]
    #[tactic(auto, unfolding(crate::specs::Range::in_opening))]
    fn in_opening(self, row: Row, version: usize, flag: usize) -> bool
        ensures { result ≡ in_opening row.kind row.before version flag self }
    {
        let open = self.field_range(row.kind);
        let exact = self.exact(row.kind, row.before, 0, 0);
        open & exact
            & (self.counts.version <= version)
            & (self.counts.flag <= flag)
            & (self.counts.inputs == 0)
            & (self.counts.outputs == 0)
            & (self.counts.items == 0)
            & (self.counts.locktime == 0)
            & (self.spot == Spot::default())
    }

    // Stages 3 to 16: there are no witnesses yet.
    #[tactic(auto, unfolding(crate::specs::Range::unwitnessed))]
    fn unwitnessed(self) -> bool
        ensures { result ≡ unwitnessed self }
    {
        (self.counts.version <= GREATEST_U32)
            & (self.counts.flag <= 255)
            & (self.counts.inputs <= self.sizes.inputs / TransactionDecoder::INPUT_WIDTH)
            & (self.counts.items == 0)
            & (self.counts.locktime == 0)
            & (self.spot.index <= TransactionDecoder::LIMIT)
            & (self.spot.left == 0)
            & (self.spot.empty == 0)
    }

    // Stages 3 to 10: a field of an input. By least and greatest: a range of std wants a clause more of each caller, that it isn't exhausted.
    #[tactic(auto, unfolding(crate::specs::Range::input_numbers))]
    fn input_numbers(self, kind: Kind, least: usize, greatest: usize, null: usize) -> bool
        ensures { result ≡ input_numbers kind least greatest null self }
    {
        let open = self.field_range(kind);
        let numbers = self.unwitnessed();
        open & numbers
            & (self.counts.outputs == 0)
            & (self.spot.index < self.counts.inputs)
            & (least <= self.spot.issuance)
            & (self.spot.issuance <= greatest)
            & (self.spot.null <= null)
    }

    #[tactic(auto, using(crate::proofs::Ranges::input_few), unfolding(crate::specs::Range::in_input))]
    fn in_input(self, row: Row, least: usize, greatest: usize, null: usize, scripts: usize) -> bool
        requires null_bound { null ≤ 1 }
        requires scripts_bound { scripts ≤ 1 }
        ensures { result ≡ in_input row.kind row.before least greatest null scripts self }
    {
        self.input_numbers(row.kind, least, greatest, null) && self.among_inputs(row, scripts)
    }

    // Stage 11.
    #[tactic(auto, unfolding(crate::specs::Range::inputs_numbers))]
    fn inputs_numbers(self, kind: Kind) -> bool
        ensures { result ≡ inputs_numbers kind self }
    {
        let open = self.field_range(kind);
        let numbers = self.unwitnessed();
        open & numbers
            & (self.counts.outputs == 0)
            & (self.spot.index == self.counts.inputs)
            & (self.spot.issuance == 0)
            & (self.spot.null == 0)
    }

    #[tactic(auto, using(crate::proofs::Ranges::inputs_few), unfolding(crate::specs::Range::behind_inputs))]
    fn behind_inputs(self, row: Row) -> bool
        ensures { result ≡ behind_inputs row.kind row.before self }
    {
        self.inputs_numbers(row.kind) && self.among_inputs(row, 0)
    }

    // Stages 12 to 15: a field of an output.
    #[tactic(auto, unfolding(crate::specs::Range::output_numbers))]
    fn output_numbers(self, kind: Kind) -> bool
        ensures { result ≡ output_numbers kind self }
    {
        let open = self.field_range(kind);
        let numbers = self.unwitnessed();
        open & numbers
            & (self.counts.inputs <= TransactionDecoder::LIMIT)
            & (self.counts.outputs <= self.sizes.outputs / TransactionDecoder::OUTPUT_WIDTH)
            & (self.spot.index < self.counts.outputs)
            & (self.spot.issuance == 0)
            & (self.spot.null == 0)
    }

    #[tactic(auto, using(crate::proofs::Ranges::output_few), unfolding(crate::specs::Range::in_output))]
    fn in_output(self, row: Row, slack: usize) -> bool
        requires { slack ≤ 96 }
        ensures { result ≡ in_output row.kind row.before slack self }
    {
        self.output_numbers(row.kind) && self.among_outputs(row, slack)
    }

    // Stage 16.
    #[tactic(auto, unfolding(crate::specs::Range::outputs_numbers))]
    fn outputs_numbers(self, kind: Kind) -> bool
        ensures { result ≡ outputs_numbers kind self }
    {
        let open = self.field_range(kind);
        let numbers = self.unwitnessed();
        open & numbers
            & (self.counts.inputs <= TransactionDecoder::LIMIT)
            & (self.counts.outputs <= self.sizes.outputs / TransactionDecoder::OUTPUT_WIDTH)
            & (self.spot.index == self.counts.outputs)
            & (self.spot.issuance == 0)
            & (self.spot.null == 0)
    }

    #[tactic(auto, using(crate::proofs::Ranges::outputs_few), unfolding(crate::specs::Range::behind_outputs))]
    fn behind_outputs(self, row: Row) -> bool
        ensures { result ≡ behind_outputs row.kind row.before self }
    {
        self.outputs_numbers(row.kind) && self.among_outputs(row, 0)
    }

    // Stages 17 to 24: the witnesses.
    #[tactic(auto, unfolding(crate::specs::Range::witness_numbers))]
    fn witness_numbers(self, kind: Kind) -> bool
        ensures { result ≡ witness_numbers kind self }
    {
        let open = self.field_range(kind);
        let room = self.item_room();
        open & (self.counts.version <= GREATEST_U32)
            & (self.counts.flag == 1)
            & (self.counts.inputs <= self.sizes.inputs / TransactionDecoder::INPUT_WIDTH)
            & (self.counts.inputs <= TransactionDecoder::LIMIT)
            & (self.counts.outputs <= self.sizes.outputs / TransactionDecoder::OUTPUT_WIDTH)
            & (self.counts.outputs <= TransactionDecoder::LIMIT)
            & (self.counts.items <= room)
            & (self.counts.locktime <= GREATEST_U32)
            & (self.spot.issuance == 0)
            & (self.spot.null == 0)
            & (self.spot.empty <= 1)
    }

    // Stages 17 to 19, and 21: a field of an input's witness. Beside output_witness_numbers: each is a definition of specs/Range, by its name.
    #[tactic(auto, unfolding(crate::specs::Range::input_witness_numbers))]
    fn input_witness_numbers(self, kind: Kind) -> bool
        ensures { result ≡ input_witness_numbers kind self }
    {
        let numbers = self.witness_numbers(kind);
        numbers & (self.spot.index < self.counts.inputs) & (self.spot.left == 0)
    }

    #[tactic(auto, using(crate::proofs::Ranges::input_witness_few), unfolding(crate::specs::Range::in_input_witness))]
    fn in_input_witness(self, row: Row, stacks: usize, seen: usize) -> bool
        requires stacks_bound { stacks ≤ 1 }
        requires seen_bound { seen ≤ 1 }
        ensures { result ≡ in_input_witness row.kind row.before stacks seen self }
    {
        let index = self.spot.index;
        self.input_witness_numbers(row.kind)
            && self.among_witnesses(
                row.kind,
                row.before + self.body() + 4 * index,
                index + stacks,
                index + seen,
            )
    }

    // Stages 20 and 22: an item.
    #[tactic(auto, unfolding(crate::specs::Range::stack_numbers))]
    fn stack_numbers(self, kind: Kind) -> bool
        ensures { result ≡ stack_numbers kind self }
    {
        let room = self.item_room().saturating_sub(self.counts.items);
        let numbers = self.witness_numbers(kind);
        numbers
            & (self.spot.index < self.counts.inputs)
            & (1 <= self.spot.left)
            & (self.spot.left <= room)
            & (self.spot.empty == 0)
    }

    #[tactic(auto, using(crate::proofs::Ranges::stack_few), unfolding(crate::specs::Range::in_stack))]
    fn in_stack(self, row: Row) -> bool
        ensures { result ≡ in_stack row.kind row.before self }
    {
        self.stack_numbers(row.kind)
            && self.lies(
                row.kind,
                row.before
                    + self.body()
                    + size(self.spot.left)
                    + 4 * self.spot.index
                    + self.counts.items,
            )
    }

    // Stages 23 and 24: a field of an output's witness.
    #[tactic(auto, unfolding(crate::specs::Range::output_witness_numbers))]
    fn output_witness_numbers(self, kind: Kind) -> bool
        ensures { result ≡ output_witness_numbers kind self }
    {
        let numbers = self.witness_numbers(kind);
        numbers & (self.spot.index < self.counts.outputs) & (self.spot.left == 0)
    }

    #[tactic(auto, using(crate::proofs::Ranges::output_witness_few), unfolding(crate::specs::Range::in_output_witness))]
    fn in_output_witness(self, row: Row, seen: usize) -> bool
        requires { seen ≤ 1 }
        ensures { result ≡ in_output_witness row.kind row.before seen self }
    {
        let inputs = self.counts.inputs;
        let index = self.spot.index;
        self.output_witness_numbers(row.kind)
            && self.among_witnesses(
                row.kind,
                row.before + self.body() + 4 * inputs + 2 * index,
                inputs,
                inputs + index + seen,
            )
    }

    // Stage 25: finished.
    #[tactic(auto, unfolding(crate::specs::Range::ended_range))]
    pub(crate) fn ended_range(self) -> bool
        ensures { result ≡ ended_range self }
    {
        (self.field.form == 0)
            & (self.field.width == 0)
            & (self.field.have == 0)
            & (self.field.value == 0)
            & (self.taken <= TransactionDecoder::LIMIT)
            & (self.counts.version <= GREATEST_U32)
            & (self.counts.flag <= 1)
            & (self.counts.inputs <= self.sizes.inputs / TransactionDecoder::INPUT_WIDTH)
            & (self.counts.inputs <= TransactionDecoder::LIMIT)
            & (self.counts.outputs <= self.sizes.outputs / TransactionDecoder::OUTPUT_WIDTH)
            & (self.counts.outputs <= TransactionDecoder::LIMIT)
            & (self.counts.items <= TransactionDecoder::LIMIT)
            & (self.counts.locktime <= GREATEST_U32)
            & (self.spot == Spot::default())
    }

    // With flag 1 there are witnesses, and not all are empty; with flag 0 there are no items.
    #[tactic(auto, unfolding(crate::specs::Range::whole_fits))]
    fn whole_fits(self) -> bool
        requires { Endable self }
        ensures { result ≡ whole_fits self.counts.flag self.counts.inputs self.counts.outputs self.counts.items self.taken }
    {
        let inputs = self.counts.inputs;
        let outputs = self.counts.outputs;
        let items = self.counts.items;
        let plain = 9 + size(inputs) + size(outputs) + 41 * inputs + 4 * outputs;
        let rest = if self.counts.flag == 1 {
            let full = plain + 4 * inputs + 2 * outputs;
            (full + items <= self.taken)
                & (full + 1 <= self.taken)
                & (items <= TransactionDecoder::LIMIT * inputs)
                & (1 <= inputs + outputs)
        } else {
            items == 0
        };
        (plain <= self.taken)
            & (self.taken <= plain + TransactionDecoder::LIMIT * (inputs + outputs))
            & rest
    }

    #[tactic(auto, unfolding(crate::specs::Range::whole_range))]
    pub(crate) fn whole_range(self) -> bool
        requires { Endable self }
        ensures { result ≡ whole_range self }
    {
        let room = self.item_room();
        let fits = self.whole_fits();
        (self.counts.items <= room) & fits
    }

    // Stage 26: refused, value the number and have the place. By numbers: no
    // state is handed back with 9 to 14, and Numbered asks for 1 to 8.
    #[tactic(auto, unfolding(crate::specs::Range::refused_range))]
    pub(crate) fn refused_range(self) -> bool
        ensures { result ≡ refused_range self }
    {
        (self.taken <= TransactionDecoder::LIMIT)
            & (self.field.form == 0)
            & (self.field.width == 0)
            & (self.field.have <= self.taken)
            & (1 <= self.field.value)
            & (self.field.value <= 8)
            & (self.counts == Counts::default())
            & (self.spot == Spot::default())
    }

    // The place, by the refusal's kind.
    #[tactic(auto, using(crate::proofs::Ranges::some_kind), unfolding(crate::specs::Range::placed_fits))]
    fn placed_fits(self) -> bool
        requires { Numbered self }
        ensures { result ≡ placed_fits self.field.value self.field.have self.taken }
    {
        let place = self.field.have;
        match RefusalKind::try_from(self.field.value) {
            Ok(kind) => {
                let places = Places::of(kind);
                places.behind.contains(&(self.taken - place)) & places.at.contains(&place)
            }
            Err(_) => false,
        }
    }

    #[tactic(auto, using(crate::proofs::Ranges::ended_endable))]
    fn finished_range(self) -> bool
        ensures { result ≡ (ended_range self && whole_range self) }
    {
        self.ended_range() && self.whole_range()
    }

    #[tactic(auto, using(crate::proofs::Ranges::refused_numbered))]
    fn refusal_range(self) -> bool
        ensures { result ≡ (refused_range self && placed_fits self.field.value self.field.have self.taken) }
    {
        self.refused_range() && self.placed_fits()
    }

    // ---- one row a stage

    // Whether the state is within its range.
    #[tactic(auto, unfolding(crate::specs::Range::in_range))]
    pub(crate) fn in_range(self) -> bool
        ensures { result ≡ in_range self }
    {
        match self.field.stage {
            stages::VERSION => self.in_opening(Row::of(Kind::Number, 0), 0, 0),
            stages::FLAG => self.in_opening(Row::of(Kind::Byte, 4), GREATEST_U32, 0),
            stages::INPUT_COUNT => self.in_opening(Row::of(Kind::Count, 5), GREATEST_U32, 255),
            stages::TXID => self.in_input(Row::of(Kind::Hidden, 5), 0, 0, 0, 0),
            stages::VOUT => self.in_input(Row::of(Kind::Number, 37), 0, 0, 0, 0),
            stages::INPUT_SCRIPT => self.in_input(Row::of(Kind::Body, 41), 0, 1, 0, 0),
            stages::SEQUENCE => self.in_input(Row::of(Kind::Number, 42), 0, 1, 0, 1),
            stages::BLINDING_NONCE => self.in_input(Row::of(Kind::Hidden, 46), 1, 1, 0, 1),
            stages::ENTROPY => self.in_input(Row::of(Kind::Hidden, 78), 1, 1, 0, 1),
            stages::ISSUANCE_AMOUNT => self.in_input(Row::of(Kind::Amount, 110), 1, 1, 0, 1),
            stages::INFLATION_KEYS => self.in_input(Row::of(Kind::Amount, 119), 1, 1, 1, 1),
            stages::OUTPUT_COUNT => self.behind_inputs(Row::of(Kind::Count, 5)),
            stages::ASSET => self.in_output(Row::of(Kind::Token, 5), 0),
            stages::VALUE => self.in_output(Row::of(Kind::Amount, 6), 32),
            stages::NONCE => self.in_output(Row::of(Kind::Token, 7), 64),
            stages::OUTPUT_SCRIPT => self.in_output(Row::of(Kind::Body, 8), 96),
            stages::LOCKTIME => self.behind_outputs(Row::of(Kind::Number, 5)),
            stages::AMOUNT_PROOF => self.in_input_witness(Row::of(Kind::Body, 9), 0, 0),
            stages::KEYS_PROOF => self.in_input_witness(Row::of(Kind::Body, 10), 0, 1),
            stages::SCRIPT_COUNT => self.in_input_witness(Row::of(Kind::Count, 11), 0, 1),
            stages::SCRIPT_ITEM => self.in_stack(Row::of(Kind::Body, 11)),
            stages::PEGIN_COUNT => self.in_input_witness(Row::of(Kind::Count, 12), 1, 1),
            stages::PEGIN_ITEM => self.in_stack(Row::of(Kind::Body, 12)),
            stages::SURJECTION_PROOF => self.in_output_witness(Row::of(Kind::Body, 9), 0),
            stages::RANGE_PROOF => self.in_output_witness(Row::of(Kind::Body, 10), 1),
            stages::FINISHED => self.finished_range(),
            stages::REFUSED => self.refusal_range(),
            _ => false,
        }
    }
}
