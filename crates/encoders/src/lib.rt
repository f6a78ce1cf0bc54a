// The writer: `write`, `written_length` and the fee question `is_fee`. Port of src/transaction/encoders.rs.
#![tactic(auto)]

mod check;
mod length;
pub mod put;
pub mod sink;
mod store;
mod table;

ghost use Rattle.std.specs.Prelude.{◌≡◌};
ghost use Rattle.layout.specs.Writing.{is_fee, written_length, writing};
ghost use Rattle.decoders.specs.Feeding.{tables};
ghost use Rattle.encoders.specs.Answers.{told, head_numbers, out_of};

use decoders::Head;
use encode::{Refusal, RefusalKind};
use store::Store;
use table::Transaction;

// The fee question, asked of one output record: an output is a fee exactly if its script has length 0.
pub fn is_fee(output: [u32; 14]) -> bool
    ensures { result ≡ is_fee output }
{
    output[9] == 0
}

// Head, tables and source go in one by one: 01's form, and C's; within they are one `Transaction`.
// The written length, or the first fault but 14.
pub fn written_length(
    head: Head,
    inputs: &[u32],
    outputs: &[u32],
    items: &[u32],
    source: &[u8],
) -> Result<usize, Refusal>
    ensures { told result ≡ written_length (head_numbers head) (tables inputs.now outputs.now items.now) source.now }
{
    let (_, n) = Transaction::judged(head, inputs, outputs, items, source)?;
    Ok(n)
}

// Writes a transaction from its head numbers, tables and source. A refused write leaves the output as it was; a written one keeps what
// stands behind it.
pub fn write(
    head: Head,
    inputs: &[u32],
    outputs: &[u32],
    items: &[u32],
    source: &[u8],
    output: &mut [u8],
) -> Result<usize, Refusal>
    ensures { out_of result output.new ≡ writing (head_numbers head) (tables inputs.now outputs.now items.now) source.now output.old }
{
    let (transaction, n) = Transaction::judged(head, inputs, outputs, items, source)?;
    if output.len() < n {
        return Err(RefusalKind::OutputShort.at(0));
    }
    let mut store = Store { out: output, at: 0 };
    transaction.put(source, &mut store);
    Ok(n)
}
