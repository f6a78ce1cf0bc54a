// Shows a transaction to a person: the strict form's answer in words; where it finished, the head numbers, then every input, output and
// item, field by field in document 01's order.
#![tactic(auto)]

mod answer;
mod field;
mod record;

use decoders::{Answer, RefusalKind, TransactionDecoder};

// Three slices, as `read_strict` takes them.
fn tables(source: &[u8], inputs: &mut [u32], outputs: &mut [u32], items: &mut [u32]) {
    let read = TransactionDecoder::read_strict(source, inputs, outputs, items);
    match read.answer {
        Answer::Finished(head) => {
            answer::finished(head);
            record::inputs(head.inputs, source, inputs, items);
            record::outputs(head.outputs, source, outputs);
        }
        Answer::More => answer::refused(RefusalKind::EndsEarly.at(read.taken)),
        Answer::Refused(refusal) => answer::refused(refusal),
    }
}

// Tables of 1,024 input, 1,024 output and 8,192 item records.
fn transaction(source: &[u8]) {
    let mut inputs = [0u32; 20480];
    let mut outputs = [0u32; 14336];
    let mut items = [0u32; 16384];
    tables(source, &mut inputs, &mut outputs, &mut items);
}

// What `command::with_input` reads into. Made apart, so that its bytes are not looked at where it is lent.
fn bytes() -> [u8; 4000001] {
    [0u8; 4000001]
}

// The program's own words; the step between is `command::with_input`, which `write_back` has too.
fn main(rt: HostRuntime) {
    let mut buffer = bytes();
    let input = command::with_input(
        &rt,
        b"usage: show [FILE]\n",
        b"Shows an Elements transaction to a person: whether it is accepted, or the refusal's number, place and words; where it is accepted, the head\nnumbers and every field of every input, output and item, each with its place. Bytes are shown in hex in wire order, as they stand in the\ntransaction: explorers show txids and asset ids reversed. FILE holds the bytes themselves, not hex. Without FILE, or with -, standard input is\nread. Room: 1024 inputs, 1024 outputs, 8192 items.\n",
        &mut buffer,
    );
    if let Some(source) = input {
        transaction(source);
    }
}
