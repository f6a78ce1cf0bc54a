// The library that Rust and C link: the functions of `takzulit` under C names, each with the same clauses. include/takzulit.h declares it.
// Once more, since a crate is a library or a static one.
#![tactic(auto)]

ghost use Rattle.std.specs.Prelude.{◌≡◌};
ghost use Rattle.layout.specs.Writing.{is_fee};
ghost use Rattle.decoders.specs.Feeding.{tables};
ghost use Rattle.takzulit.specs.Numbers.{started, starting, kept, feeding, finishing, shown, reading, strict_reading, length_asked, wrote, writes};

// The fresh start: every number of the lent tables is set to 0.
#[unsafe(no_mangle)]
pub extern "C" fn takzulit_new(
    state: &mut [usize; 20],
    inputs: &mut [u32],
    outputs: &mut [u32],
    items: &mut [u32],
)
    ensures { started state.new (tables inputs.new outputs.new items.new) ≡ starting (tables inputs.old outputs.old items.old) }
{
    takzulit::takzulit_new(state, inputs, outputs, items);
}

// Feeds a piece.
#[unsafe(no_mangle)]
pub extern "C" fn takzulit_push_bytes(
    state: &mut [usize; 20],
    piece: &[u8],
    inputs: &mut [u32],
    outputs: &mut [u32],
    items: &mut [u32],
    head: &mut [u32; 7],
    answer: &mut [usize; 3],
)
    ensures { kept state.new (shown answer.new head.new (tables inputs.new outputs.new items.new)) ≡ feeding state.old (tables inputs.old outputs.old items.old) piece.now }
{
    takzulit::takzulit_push_bytes(state, piece, inputs, outputs, items, head, answer);
}

// Finishes.
#[unsafe(no_mangle)]
pub extern "C" fn takzulit_end(
    state: &mut [usize; 20],
    inputs: &mut [u32],
    outputs: &mut [u32],
    items: &mut [u32],
    head: &mut [u32; 7],
    answer: &mut [usize; 3],
)
    ensures { kept state.new (shown answer.new head.new (tables inputs.new outputs.new items.new)) ≡ finishing state.old (tables inputs.old outputs.old items.old) }
{
    takzulit::takzulit_end(state, inputs, outputs, items, head, answer);
}

// Reads at once.
#[unsafe(no_mangle)]
pub extern "C" fn takzulit_read(
    bytes: &[u8],
    inputs: &mut [u32],
    outputs: &mut [u32],
    items: &mut [u32],
    head: &mut [u32; 7],
    answer: &mut [usize; 3],
)
    ensures { shown answer.new head.new (tables inputs.new outputs.new items.new) ≡ reading (tables inputs.old outputs.old items.old) bytes.now }
{
    takzulit::takzulit_read(bytes, inputs, outputs, items, head, answer);
}

// Reads at once, strictly.
#[unsafe(no_mangle)]
pub extern "C" fn takzulit_read_strict(
    bytes: &[u8],
    inputs: &mut [u32],
    outputs: &mut [u32],
    items: &mut [u32],
    head: &mut [u32; 7],
    answer: &mut [usize; 3],
)
    ensures { shown answer.new head.new (tables inputs.new outputs.new items.new) ≡ strict_reading (tables inputs.old outputs.old items.old) bytes.now }
{
    takzulit::takzulit_read_strict(bytes, inputs, outputs, items, head, answer);
}

// The written length alone.
#[unsafe(no_mangle)]
pub extern "C" fn takzulit_written_length(
    head: &[u32; 7],
    inputs: &[u32],
    outputs: &[u32],
    items: &[u32],
    source: &[u8],
    answer: &mut [usize; 3],
)
    ensures { answer.new ≡ length_asked head.now (tables inputs.now outputs.now items.now) source.now }
{
    takzulit::takzulit_written_length(head, inputs, outputs, items, source, answer);
}

// Writes.
#[unsafe(no_mangle)]
pub extern "C" fn takzulit_write(
    head: &[u32; 7],
    inputs: &[u32],
    outputs: &[u32],
    items: &[u32],
    source: &[u8],
    output: &mut [u8],
    answer: &mut [usize; 3],
)
    ensures { wrote answer.new output.new ≡ writes head.now (tables inputs.now outputs.now items.now) source.now output.old }
{
    takzulit::takzulit_write(head, inputs, outputs, items, source, output, answer);
}

// The fee question, of one output record.
#[unsafe(no_mangle)]
pub extern "C" fn takzulit_is_fee(output: &[u32; 14]) -> bool
    ensures { result ≡ is_fee output.now }
{
    takzulit::takzulit_is_fee(output)
}
