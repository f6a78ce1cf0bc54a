// The written length, from the records' numbers. It stops growing once it is above the limit, so that no sum wraps.
ghost use Rattle.std.specs.Prelude.{◌≡◌, ◌+◌, ◌^◌};
ghost use Rattle.layout.specs.Records.{sum};
ghost use Rattle.encoders.specs.Answers.{head_numbers};
ghost use Rattle.encoders.specs.Needs.{Measures, capped, compact_width, body_width, token_width, issuance_width, input_width, output_width, input_witness_width, output_witness_width, item_width, whole_input, whole_output, written_width};

use crate::check::value_width;
use crate::table::{InputRow, ItemRow, OutputRow, Transaction};
use decoders::TransactionDecoder;

// ---- one record

// Counts and lengths of the tables are u32, so none takes 9 bytes.
pub(crate) fn compact_width(n: u32) -> usize
    ensures { Measures 10 result (compact_width n) }
{
    match n {
        0..=252 => 1,
        253..=65_535 => 3,
        _ => 5,
    }
}

pub(crate) fn body_width(n: u32) -> usize
    ensures { Measures (2 ^ 33) result (body_width n) }
{
    compact_width(n) + n as usize
}

// An asset's or a nonce's 1 or 33 bytes; 33 also where the prefix is not listed, as `value_width`.
pub(crate) fn token_width(prefix: u32) -> usize
    ensures { Measures 34 result (token_width prefix) }
{
    match prefix {
        0 => 1,
        _ => 33,
    }
}

pub(crate) fn issuance_width(r: &InputRow) -> usize
    ensures { Measures 131 result (issuance_width r.now) }
{
    if 2 <= r[2] {
        return 64 + value_width(r[7]) + value_width(r[10]);
    }
    0
}

pub(crate) fn input_width(r: &InputRow) -> usize
    ensures { Measures (2 ^ 34) result (input_width r.now) }
{
    40 + body_width(r[4]) + issuance_width(r)
}

// Without the items, which are counted by themselves.
pub(crate) fn input_witness_width(r: &InputRow) -> usize
    ensures { Measures (2 ^ 35) result (input_witness_width r.now) }
{
    body_width(r[14]) + body_width(r[16]) + compact_width(r[18]) + compact_width(r[19])
}

pub(crate) fn output_width(r: &OutputRow) -> usize
    ensures { Measures (2 ^ 34) result (output_width r.now) }
{
    token_width(r[0]) + value_width(r[2]) + token_width(r[6]) + body_width(r[9])
}

pub(crate) fn output_witness_width(r: &OutputRow) -> usize
    ensures { Measures (2 ^ 35) result (output_witness_width r.now) }
{
    body_width(r[11]) + body_width(r[13])
}

// A record with its witness. Two, since a generic one would take both widths as closures, with a clause for each.
pub(crate) fn whole_input(flag: u32, r: &InputRow) -> usize
    ensures { Measures (2 ^ 36) result (whole_input flag r.now) }
{
    if flag == 1 {
        return input_width(r) + input_witness_width(r);
    }
    input_width(r)
}

pub(crate) fn whole_output(flag: u32, r: &OutputRow) -> usize
    ensures { Measures (2 ^ 36) result (whole_output flag r.now) }
{
    if flag == 1 {
        return output_width(r) + output_witness_width(r);
    }
    output_width(r)
}

pub(crate) fn item_width(r: &ItemRow) -> usize
    ensures { Measures (2 ^ 36) result (item_width r.now) }
{
    body_width(r[1])
}

// ---- over all records: a chain of one line for each kind; a generic one would take that line's closure, and a clause on what it answers

pub(crate) fn capped(n: usize) -> usize
    ensures { result ≡ capped n }
{
    n.min(TransactionDecoder::LIMIT + 1)
}

// So much and one width more.
pub(crate) fn grown(sum: usize, width: usize) -> usize
    ensures { result ≡ capped (sum + width) }
{
    capped(sum.saturating_add(width))
}

pub(crate) fn inputs_width(flag: u32, inputs: &[InputRow]) -> usize
    ensures { result ≡ capped (sum (whole_input flag) inputs.now) }
{
    inputs
        .iter()
        .fold(0, |sum, r| grown(sum, whole_input(flag, r)))
}

pub(crate) fn outputs_width(flag: u32, outputs: &[OutputRow]) -> usize
    ensures { result ≡ capped (sum (whole_output flag) outputs.now) }
{
    outputs
        .iter()
        .fold(0, |sum, r| grown(sum, whole_output(flag, r)))
}

pub(crate) fn items_width(items: &[ItemRow]) -> usize
    ensures { result ≡ capped (sum item_width items.now) }
{
    items.iter().fold(0, |sum, r| grown(sum, item_width(r)))
}

impl Transaction<'_> {
    // The whole transaction; above the limit, one more than it.
    pub(crate) fn width(&self) -> usize
        ensures { result ≡ capped (written_width (head_numbers self.now.head) self.now.inputs.now self.now.outputs.now self.now.items.now) }
    {
        let head = self.head;
        let ins = inputs_width(head.flag, self.inputs);
        let outs = outputs_width(head.flag, self.outputs);
        let its = items_width(self.items);
        capped(9 + compact_width(head.inputs) + ins + compact_width(head.outputs) + outs + its)
    }
}
