// Reads a transaction, holds what writing it again gives, from its bytes and its tables, beside those bytes, and says whether they are the same.
#![tactic(auto)]

mod beside;

ghost use Rattle.std.specs.Prelude.{◌≡◌};
ghost use Rattle.decoders.specs.Feeding.{tables, layout_sizes};
ghost use Rattle.encoders.specs.Answers.{head_numbers};
ghost use Rattle.write_back.specs.Back.{told_of, Rewritten, Back};

use beside::Beside;
use command::text;
use decoders::{Answer, Head, Refusal, RefusalKind, TransactionDecoder};

// What came of it. Unwritten and Different are for a reader or a writer that breaks its promise. Four ends, and the two refusals are told apart:
// neither an Option nor a Result has them.
#[derive(Clone, Copy)]
pub enum Outcome {
    Same(usize),
    Different(usize),
    Refused(Refusal),
    Unwritten(Refusal),
}

// The written bytes, n of them, were held beside the source, which has so many bytes.
fn told(reached: Result<usize, usize>, n: usize, there: usize) -> Outcome
    ensures { result ≡ told_of reached n there }
{
    match reached {
        Ok(at) => {
            if at == there {
                return Outcome::Same(n);
            }
            Outcome::Different(at)
        }
        Err(at) => Outcome::Different(at),
    }
}

// Pass 1 of writing judges head, tables and source; what pass 2 would put is held beside the source. Three slices, here and in `read`, as the
// library takes them: the promises are of tables of any size.
fn written(head: Head, source: &[u8], inputs: &[u32], outputs: &[u32], items: &[u32]) -> Outcome
    ensures { Rewritten (head_numbers head) (tables inputs.now outputs.now items.now) source.now result }
{
    let mut beside = Beside {
        source,
        reached: Ok(0),
    };
    match encoders::put::write_to(head, inputs, outputs, items, source, &mut beside) {
        Ok(n) => told(beside.reached, n, source.len()),
        Err(refusal) => Outcome::Unwritten(refusal),
    }
}

fn read(source: &[u8], inputs: &mut [u32], outputs: &mut [u32], items: &mut [u32]) -> Outcome
    ensures { Back (layout_sizes (tables inputs.old outputs.old items.old)) source.now (tables inputs.new outputs.new items.new) result }
{
    let r = TransactionDecoder::read_strict(source, inputs, outputs, items);
    match r.answer {
        Answer::Finished(head) => written(head, source, inputs, outputs, items),
        Answer::More => Outcome::Refused(RefusalKind::EndsEarly.at(r.taken)),
        Answer::Refused(refusal) => Outcome::Refused(refusal),
    }
}

fn refused(refusal: Refusal) {
    command::refused(refusal);
    if refusal.kind == RefusalKind::NoRecordLeft {
        text(b": here is room for 512 inputs, 512 outputs, 1024 items");
    }
    text(b"\n");
}

// A Display would have the same four arms, and want a text with room for the longest line.
fn print(outcome: Outcome) {
    match outcome {
        Outcome::Same(n) => {
            text(b"same: ");
            command::number(n as u64);
            text(b" bytes\n");
        }
        Outcome::Different(at) => {
            text(b"different at ");
            command::number(at as u64);
            text(b"\n");
        }
        Outcome::Refused(refusal) => refused(refusal),
        Outcome::Unwritten(refusal) => {
            text(b"not written, ");
            refused(refusal);
        }
    }
}

// Tables of 512 input, 512 output and 1,024 item records: fewer than `show` has, so that all of it fits into 4 MiB of stack.
fn transaction(source: &[u8]) {
    let mut inputs = [0u32; 10240];
    let mut outputs = [0u32; 7168];
    let mut items = [0u32; 2048];
    let outcome = read(source, &mut inputs, &mut outputs, &mut items);
    print(outcome);
}

// What `command::with_input` reads into. Made apart, so that its bytes are not looked at where it is lent.
fn bytes() -> [u8; 4000001] {
    [0u8; 4000001]
}

// The program's own words; the step between is `command::with_input`, which `show` has too.
fn main(rt: HostRuntime) {
    let mut buffer = bytes();
    let input = command::with_input(
        &rt,
        b"usage: write_back [FILE]\n",
        b"Reads an Elements transaction, and holds what writing it again gives beside its bytes, one by one. Says 'same: N bytes', or the refusal's number\nand place. FILE holds the bytes themselves, not hex. Without FILE, or with -, standard input is read. Room: 512 inputs, 512 outputs, 1024 items.\n",
        &mut buffer,
    );
    if let Some(source) = input {
        transaction(source);
    }
}
