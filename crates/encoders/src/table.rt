// The lent tables as rows of numbers, so many as the head counts.
ghost use Rattle.std.specs.Prelude.{◌≡◌, ◌*◌, ◌/◌, ◌<◌, ◌≤◌, ◌&&◌, leb, length};
ghost use Rattle.layout.specs.Writing.{records};
ghost use Rattle.decoders.specs.Feeding.{tables};
ghost use Rattle.encoders.specs.Answers.{head_numbers};
ghost use Rattle.encoders.specs.Needs.{Lent, Judged};

use decoders::{Head, TransactionDecoder};
use encode::{Refusal, RefusalKind};

pub(crate) type InputRow = [u32; TransactionDecoder::INPUT_WIDTH];

pub(crate) type OutputRow = [u32; TransactionDecoder::OUTPUT_WIDTH];

pub(crate) type ItemRow = [u32; TransactionDecoder::ITEM_WIDTH];

// The counted records, beside the head that counts them.
#[derive(Clone, Copy)]
pub(crate) struct Transaction<'a> {
    pub(crate) head: Head,
    pub(crate) inputs: &'a [InputRow],
    pub(crate) outputs: &'a [OutputRow],
    pub(crate) items: &'a [ItemRow],
}

// The first n rows, N numbers each.
pub(crate) fn rows<const N: usize>(table: &[u32], n: usize) -> &[[u32; N]]
    requires wide { 0 < N }
    requires held { N * n ≤ length table.now }
    ensures { result.now ≡ records N n table.now }
{
    let (all, _) = table.as_chunks::<N>();
    &all[..n]
}

// No count exceeds its table. The sizes are in numbers; `decoders`' `Sizes` would be made here only to be taken apart.
fn held(head: Head, inputs: usize, outputs: usize, items: usize) -> bool
    ensures { result ≡ (leb head.inputs (inputs / 20) && leb head.outputs (outputs / 14) && leb head.items (items / 2)) }
{
    (head.inputs as usize <= inputs / TransactionDecoder::INPUT_WIDTH)
        & (head.outputs as usize <= outputs / TransactionDecoder::OUTPUT_WIDTH)
        & (head.items as usize <= items / TransactionDecoder::ITEM_WIDTH)
}

impl<'a> Transaction<'a> {
    // Of tables that hold so many; else 10.
    pub(crate) fn lent(
        head: Head,
        inputs: &'a [u32],
        outputs: &'a [u32],
        items: &'a [u32],
    ) -> Result<Transaction<'a>, Refusal>
        ensures { Lent (head_numbers head) (tables inputs.now outputs.now items.now) result }
    {
        if !held(head, inputs.len(), outputs.len(), items.len()) {
            return Err(RefusalKind::TablesDiffer.at(0));
        }
        Ok(Transaction {
            head,
            inputs: rows(inputs, head.inputs as usize),
            outputs: rows(outputs, head.outputs as usize),
            items: rows(items, head.items as usize),
        })
    }

    // Pass 1: lent, judged and measured, with the written length; or the first fault but 14. So a refused write touches nothing.
    // Inlined, since a transaction handed back costs `written_length` 3 % more instructions.
    #[inline(always)]
    pub(crate) fn judged(
        head: Head,
        inputs: &'a [u32],
        outputs: &'a [u32],
        items: &'a [u32],
        source: &[u8],
    ) -> Result<(Transaction<'a>, usize), Refusal>
        ensures { Judged (head_numbers head) (tables inputs.now outputs.now items.now) source.now result }
    {
        let transaction = Transaction::lent(head, inputs, outputs, items)?;
        transaction.judge(source.len())?;
        let n = transaction.width();
        if TransactionDecoder::LIMIT < n {
            return Err(RefusalKind::LimitPassed.at(0));
        }
        Ok((transaction, n))
    }
}
