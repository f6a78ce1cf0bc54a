// The reader and the writer over plain numbers, fixed arrays and slices. The crate `takzulit_c` exports these functions, as include/takzulit.h declares them:
// state, head, answer and tables are as C lends them, and each function of C's is one here.
#![tactic(auto)]

mod pack;

ghost use Rattle.std.specs.Prelude.{◌≡◌};
ghost use Rattle.layout.specs.Writing.{is_fee};
ghost use Rattle.decoders.specs.Feeding.{tables};
ghost use Rattle.takzulit.specs.Numbers.{started, starting, kept, feeding, finishing, shown, reading, strict_reading, length_asked, wrote, writes};

use decoders::{Head, TransactionDecoder};
use pack::{HeadNumbers, StateNumbers};

// The fresh start: every number of the lent tables is set to 0.
pub fn takzulit_new(
    state: &mut [usize; 20],
    inputs: &mut [u32],
    outputs: &mut [u32],
    items: &mut [u32],
)
    ensures { started state.new (tables inputs.new outputs.new items.new) ≡ starting (tables inputs.old outputs.old items.old) }
{
    let decoder = TransactionDecoder::new(inputs, outputs, items);
    let StateNumbers(next) = StateNumbers::from(decoder);
    *state = next;
}

// Feeds a piece.
pub fn takzulit_push_bytes(
    state: &mut [usize; 20],
    piece: &[u8],
    inputs: &mut [u32],
    outputs: &mut [u32],
    items: &mut [u32],
    head: &mut [u32; 7],
    answer: &mut [usize; 3],
)
    ensures { kept state.new (shown answer.new head.new (tables inputs.new outputs.new items.new)) ≡ feeding state.old (tables inputs.old outputs.old items.old) piece.now }
{
    let decoder = TransactionDecoder::from(StateNumbers(*state));
    let fed = decoder.push_bytes(piece, inputs, outputs, items);
    let told = fed.answer;
    let StateNumbers(next) = StateNumbers::from(fed.decoder);
    *state = next;
    *head = pack::head(told);
    *answer = pack::answer(told, fed.taken);
}

// Finishes.
pub fn takzulit_end(
    state: &mut [usize; 20],
    inputs: &mut [u32],
    outputs: &mut [u32],
    items: &mut [u32],
    head: &mut [u32; 7],
    answer: &mut [usize; 3],
)
    ensures { kept state.new (shown answer.new head.new (tables inputs.new outputs.new items.new)) ≡ finishing state.old (tables inputs.old outputs.old items.old) }
{
    let decoder = TransactionDecoder::from(StateNumbers(*state));
    let fed = decoder.end(inputs, outputs, items);
    let told = fed.answer;
    let StateNumbers(next) = StateNumbers::from(fed.decoder);
    *state = next;
    *head = pack::head(told);
    *answer = pack::answer(told, fed.taken);
}

// Reads at once.
pub fn takzulit_read(
    bytes: &[u8],
    inputs: &mut [u32],
    outputs: &mut [u32],
    items: &mut [u32],
    head: &mut [u32; 7],
    answer: &mut [usize; 3],
)
    ensures { shown answer.new head.new (tables inputs.new outputs.new items.new) ≡ reading (tables inputs.old outputs.old items.old) bytes.now }
{
    let read = TransactionDecoder::read(bytes, inputs, outputs, items);
    let told = read.answer;
    *head = pack::head(told);
    *answer = pack::answer(told, read.taken);
}

// Reads at once, strictly.
pub fn takzulit_read_strict(
    bytes: &[u8],
    inputs: &mut [u32],
    outputs: &mut [u32],
    items: &mut [u32],
    head: &mut [u32; 7],
    answer: &mut [usize; 3],
)
    ensures { shown answer.new head.new (tables inputs.new outputs.new items.new) ≡ strict_reading (tables inputs.old outputs.old items.old) bytes.now }
{
    let read = TransactionDecoder::read_strict(bytes, inputs, outputs, items);
    let told = read.answer;
    *head = pack::head(told);
    *answer = pack::answer(told, read.taken);
}

// The written length alone.
pub fn takzulit_written_length(
    head: &[u32; 7],
    inputs: &[u32],
    outputs: &[u32],
    items: &[u32],
    source: &[u8],
    answer: &mut [usize; 3],
)
    ensures { answer.new ≡ length_asked head.now (tables inputs.now outputs.now items.now) source.now }
{
    let told = encoders::written_length(
        Head::from(HeadNumbers(*head)),
        inputs,
        outputs,
        items,
        source,
    );
    *answer = pack::written(told);
}

// Writes.
pub fn takzulit_write(
    head: &[u32; 7],
    inputs: &[u32],
    outputs: &[u32],
    items: &[u32],
    source: &[u8],
    output: &mut [u8],
    answer: &mut [usize; 3],
)
    ensures { wrote answer.new output.new ≡ writes head.now (tables inputs.now outputs.now items.now) source.now output.old }
{
    let told = encoders::write(
        Head::from(HeadNumbers(*head)),
        inputs,
        outputs,
        items,
        source,
        output,
    );
    *answer = pack::written(told);
}

// The fee question, of one output record.
pub fn takzulit_is_fee(output: &[u32; 14]) -> bool
    ensures { result ≡ is_fee output.now }
{
    encoders::is_fee(*output)
}
