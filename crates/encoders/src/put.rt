// Pass 2: what pass 1 has judged to pass is written, byte after byte, into a sink.
// Source and sink are two arguments, no struct: it would lend the sink inside, and each promise would speak of that field at both ends.
// All of it is inlined into `write` and `write_to`. `write` makes its sink, so the place in the output stays in a register: by calls, short bodies
// took twice the time.
ghost use Rattle.std.specs.Prelude.{◌≡◌, ◌+◌, ◌≤◌, length, take, drop, map};
ghost use Rattle.layout.specs.Contents.{Every, compact_bytes, body_bytes, list_bytes, value_bytes, token_bytes, issuance_bytes, input_witness_bytes, output_witness_bytes};
ghost use Rattle.layout.specs.Writing.{written_length, written_bytes, body, value_of, token_of, item_of, input_witness_of, output_witness_of};
ghost use Rattle.decoders.specs.Feeding.{tables};
ghost use Rattle.encoders.specs.Answers.{told, head_numbers};
ghost use Rattle.encoders.specs.Sinks.{Took, handed};
ghost use Rattle.encoders.specs.Puts.{Prefixed, issuance_in, IssuanceReady, InputReady, OutputReady, OutputWitnessReady, ItemReady, InputWitnessReady, input_row_bytes, output_row_bytes, witness_row_bytes, output_witness_row_bytes, TransactionReady, transaction_bytes};

use crate::check;
use crate::sink::Sink;
use crate::table::{InputRow, ItemRow, OutputRow, Transaction};
use decoders::Head;
use encode::Refusal;

// The shortest form; no number of a table is above 4294967295.
#[inline(always)]
fn put_compact<S: Sink>(n: u32, sink: &mut S)
    ensures { Took S.step (compact_bytes n) sink.old sink.new }
{
    if n <= 252 {
        sink.byte(n as u8);
        return;
    }
    if n <= 65535 {
        sink.byte(253);
        sink.part(&(n as u16).to_le_bytes());
        return;
    }
    sink.byte(254);
    sink.part(&n.to_le_bytes());
}

#[inline(always)]
fn put_part<S: Sink>(source: &[u8], at: usize, n: usize, sink: &mut S)
    requires { at + n ≤ length source.now }
    ensures { Took S.step (body source.now at n) sink.old sink.new }
{
    let end = at + n;
    sink.part(&source[at..end]);
}

#[inline(always)]
fn put_body<S: Sink>(source: &[u8], at: u32, n: u32, sink: &mut S)
    requires { at + n ≤ length source.now }
    ensures { Took S.step (body_bytes (body source.now at n)) sink.old sink.new }
{
    put_compact(n, sink);
    put_part(source, at as usize, n as usize, sink);
}

#[inline(always)]
fn put_value<S: Sink>(source: &[u8], at: usize, prefix: u32, high: u32, low: u32, sink: &mut S)
    requires { Prefixed 2 (length source.now) at prefix }
    ensures { Took S.step (value_bytes (value_of source.now at prefix high low)) sink.old sink.new }
{
    sink.byte(prefix as u8);
    if prefix == 0 {
        return;
    }
    if prefix == 1 {
        sink.part(&high.to_be_bytes());
        sink.part(&low.to_be_bytes());
        return;
    }
    put_part(source, at + 1, 32, sink);
}

#[inline(always)]
fn put_token<S: Sink>(source: &[u8], at: u32, prefix: u32, sink: &mut S)
    requires { Prefixed 1 (length source.now) at prefix }
    ensures { Took S.step (token_bytes (token_of source.now at prefix)) sink.old sink.new }
{
    sink.byte(prefix as u8);
    if prefix == 0 {
        return;
    }
    put_part(source, at as usize + 1, 32, sink);
}

// Only with the issuance flag.
#[inline(always)]
fn put_issuance<S: Sink>(source: &[u8], r: &InputRow, sink: &mut S)
    requires { IssuanceReady (length source.now) r.now }
    ensures { Took S.step (issuance_bytes (issuance_in source.now r.now)) sink.old sink.new }
{
    if r[2] < 2 {
        return;
    }
    let at = r[6] as usize;
    put_part(source, at, 32, sink);
    put_part(source, at + 32, 32, sink);
    put_value(source, at + 64, r[7], r[8], r[9], sink);
    let behind = at + 64 + check::value_width(r[7]);
    put_value(source, behind, r[10], r[11], r[12], sink);
}

#[inline(always)]
fn put_input<S: Sink>(source: &[u8], r: &InputRow, sink: &mut S)
    requires { InputReady (length source.now) r.now }
    ensures { Took S.step (input_row_bytes source.now r.now) sink.old sink.new }
{
    put_part(source, r[0] as usize, 32, sink);
    sink.part(&(r[1] | r[2] << 30).to_le_bytes());
    put_body(source, r[3], r[4], sink);
    sink.part(&r[5].to_le_bytes());
    put_issuance(source, r, sink);
}

#[inline(always)]
fn put_output<S: Sink>(source: &[u8], r: &OutputRow, sink: &mut S)
    requires { OutputReady (length source.now) r.now }
    ensures { Took S.step (output_row_bytes source.now r.now) sink.old sink.new }
{
    put_token(source, r[1], r[0], sink);
    put_value(source, r[3] as usize, r[2], r[4], r[5], sink);
    put_token(source, r[7], r[6], sink);
    put_body(source, r[8], r[9], sink);
}

#[inline(always)]
fn put_output_witness<S: Sink>(source: &[u8], r: &OutputRow, sink: &mut S)
    requires { OutputWitnessReady (length source.now) r.now }
    ensures { Took S.step (output_witness_row_bytes source.now r.now) sink.old sink.new }
{
    put_body(source, r[10], r[11], sink);
    put_body(source, r[12], r[13], sink);
}

// The items of one stack stand from the first on.
#[inline(always)]
fn put_stack<S: Sink>(source: &[u8], items: &[ItemRow], first: usize, n: u32, sink: &mut S)
    requires ready { Every (ItemReady (length source.now)) items.now }
    requires held { first + n ≤ length items.now }
    ensures { Took S.step (list_bytes body_bytes (take n (drop first (map (item_of source.now) items.now)))) sink.old sink.new }
{
    put_compact(n, sink);
    let end = first + n as usize;
    for r in &items[first..end] {
        put_body(source, r[0], r[1], sink);
    }
}

#[inline(always)]
fn put_input_witness<S: Sink>(source: &[u8], items: &[ItemRow], r: &InputRow, sink: &mut S)
    requires items_ready { Every (ItemReady (length source.now)) items.now }
    requires ready { InputWitnessReady (length source.now) (length items.now) r.now }
    ensures { Took S.step (witness_row_bytes source.now items.now r.now) sink.old sink.new }
{
    put_body(source, r[13], r[14], sink);
    put_body(source, r[15], r[16], sink);
    let first = r[17] as usize;
    put_stack(source, items, first, r[18], sink);
    put_stack(source, items, first + r[18] as usize, r[19], sink);
}

impl Transaction<'_> {
    // Each count stands before its records; witnesses are last.
    #[inline(always)]
    pub(crate) fn put<S: Sink>(&self, source: &[u8], sink: &mut S)
        requires { TransactionReady (length source.now) self.now }
        ensures { Took S.step (transaction_bytes source.now self.now) sink.old sink.new }
    {
        sink.part(&self.head.version.to_le_bytes());
        sink.byte(self.head.flag as u8);
        put_compact(self.head.inputs, sink);
        for r in self.inputs {
            put_input(source, r, sink);
        }
        put_compact(self.head.outputs, sink);
        for r in self.outputs {
            put_output(source, r, sink);
        }
        sink.part(&self.head.locktime.to_le_bytes());
        if self.head.flag == 0 {
            return;
        }
        for r in self.inputs {
            put_input_witness(source, self.items, r, sink);
        }
        for r in self.outputs {
            put_output_witness(source, r, sink);
        }
    }
}

// Writes a transaction into any sink. A refused one hands it nothing.
pub fn write_to<S: Sink>(
    head: Head,
    inputs: &[u32],
    outputs: &[u32],
    items: &[u32],
    source: &[u8],
    sink: &mut S,
) -> Result<usize, Refusal>
    ensures answers { told result ≡ written_length (head_numbers head) (tables inputs.now outputs.now items.now) source.now }
    ensures takes { Took S.step (handed (written_length (head_numbers head) (tables inputs.now outputs.now items.now) source.now) (written_bytes (head_numbers head) (tables inputs.now outputs.now items.now) source.now)) sink.old sink.new }
{
    let (transaction, n) = Transaction::judged(head, inputs, outputs, items, source)?;
    transaction.put(source, sink);
    Ok(n)
}
