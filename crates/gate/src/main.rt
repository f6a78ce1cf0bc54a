// The gate: reads a transaction from standard input and prints the strict form's answer, place, and input, output and item counts.
#![tactic(auto)]

mod text;

ghost use Rattle.std.specs.Prelude.{◌≡◌, IfOk};
ghost use Rattle.decoders.specs.Feeding.{told, tables, layout_sizes};
ghost use Rattle.encode.specs.Refusal.{number_of};
ghost use Rattle.gate.specs.Verdict.{is_refused, verdict_of, Judged, Spoken, Printed};

use decoders::{Answer, Refusal, RefusalKind, TransactionDecoder};
use std::env::{Env, FillError};
use std::io::{Error, Print, Read, Stdin};
use text::Text;

const STDERR_FILENO: i32 = 2;

// The five numbers that are printed.
#[derive(Clone, Copy)]
pub struct Line {
    // 0 where it is accepted: a number, since it is printed, and `line_of` and the theorems on it say so
    pub number: usize,
    pub place: usize,
    pub inputs: u32,
    pub outputs: u32,
    pub items: u32,
}

// What came of an input that could be read, and what is told of it. Settled: before its end, and whatever follows. Neither is an error: both
// ends tell a line, and `Judged` says of each what of the input it rests on.
#[derive(Clone, Copy, Drop)]
pub enum Seen<T> {
    Ended(T),
    Settled(T),
}

fn is_refused(answer: Answer) -> bool
    ensures { result ≡ is_refused (told answer) }
{
    matches!(answer, Answer::Refused(_))
}

// A refusal's line, which counts nothing.
fn refused(refusal: Refusal) -> Line
    ensures { result ≡ record { number = number_of refusal.kind; place = refusal.place; inputs = 0; outputs = 0; items = 0 } }
{
    Line {
        number: refusal.kind.number(),
        place: refusal.place,
        inputs: 0,
        outputs: 0,
        items: 0,
    }
}

// The line of an answer after so many bytes taken, and whether bytes follow these. Where more is wanted, it is finishing's refusal.
fn verdict(answer: Answer, taken: usize, follows: bool) -> Line
    ensures { result ≡ verdict_of (told answer) taken follows }
{
    match answer {
        Answer::Finished(_) if follows => refused(RefusalKind::BytesFollow.at(taken)),
        Answer::Finished(head) => Line {
            number: 0,
            place: 0,
            inputs: head.inputs,
            outputs: head.outputs,
            items: head.items,
        },
        Answer::More => refused(RefusalKind::EndsEarly.at(taken)),
        Answer::Refused(refusal) => refused(refusal),
    }
}

// Reads standard input through the buffer, again and again, and feeds what came. A refusal ends it, and so does a byte behind a finished
// transaction; a transaction that is finished with the bytes read so far needs one more read. Three slices, here and in `answer`, as the library
// takes them: the promise is of tables of any size.
fn listen(
    mut input: Stdin,
    buffer: &mut [u8],
    inputs: &mut [u32],
    outputs: &mut [u32],
    items: &mut [u32],
) -> Result<Seen<Line>, Error>
    ensures { IfOk result (Judged (layout_sizes (tables inputs.old outputs.old items.old))) }
{
    let mut decoder = TransactionDecoder::new(inputs, outputs, items);
    // a loop: each read lends the buffer anew, so no iterator hands its pieces out
    loop {
        let n = input.read(buffer)?;
        if n == 0 {
            let last = decoder.end(inputs, outputs, items);
            let answer = last.answer;
            let line = verdict(answer, decoder.taken, false);
            return Ok(Seen::Ended(line));
        }
        let fed = decoder.push_bytes(&buffer[..n], inputs, outputs, items);
        let next = fed.decoder;
        let answer = fed.answer;
        if fed.taken < n {
            let line = verdict(answer, next.taken, true);
            return Ok(Seen::Settled(line));
        }
        if is_refused(answer) {
            let line = verdict(answer, next.taken, false);
            return Ok(Seen::Settled(line));
        }
        decoder = next;
    }
}

// Listens, and puts the line into a text.
fn answer(
    input: Stdin,
    buffer: &mut [u8],
    inputs: &mut [u32],
    outputs: &mut [u32],
    items: &mut [u32],
) -> Result<Seen<Text>, Error>
    ensures { IfOk result (Spoken (layout_sizes (tables inputs.old outputs.old items.old))) }
{
    let seen = listen(input, buffer, inputs, outputs, items)?;
    Ok(match seen {
        Seen::Ended(line) => Seen::Ended(text::put_line(line)),
        Seen::Settled(line) => Seen::Settled(text::put_line(line)),
    })
}

// One write, not io's own, which goes on after a part. A line that was cut short is none, so it is told as a write that failed.
fn print(rt: &HostRuntime, line: &[u8])
    requires { Printed line.now }
{
    let put = rt.write_some(line).unwrap_or(0);
    if put < line.len() {
        io::write_all(
            STDERR_FILENO,
            b"gate: standard output could not be written\n",
        );
    }
}

// Whether there is an argument behind the program's name.
fn is_given(rt: &HostRuntime) -> bool {
    let mut word = [0u8; 1];
    !matches!(rt.arg(1, &mut word), Err(FillError::NotPresent))
}

// 65,536 bytes, and tables of 64 input, 64 output and 256 item records. Apart from `main`: there the buffer was zeroed twice.
fn hear(rt: &HostRuntime) {
    let mut buffer: [u8; 65536] = [0; 65536];
    let mut inputs: [u32; 1280] = [0; 1280];
    let mut outputs: [u32; 896] = [0; 896];
    let mut items: [u32; 512] = [0; 512];
    let said = answer(
        rt.stdin(),
        &mut buffer,
        &mut inputs,
        &mut outputs,
        &mut items,
    );
    // two arms: where one takes both by `|`, what `print` requires can be proved by names of the check's own alone
    match said {
        Ok(Seen::Ended(text)) => print(rt, text.as_slice()),
        Ok(Seen::Settled(text)) => print(rt, text.as_slice()),
        Err(_) => {
            io::write_all(STDERR_FILENO, b"gate: standard input could not be read\n");
        }
    }
}

fn main(rt: HostRuntime) {
    if is_given(&rt) {
        io::write_all(STDERR_FILENO, b"usage: gate < TRANSACTION\n");
        return;
    }
    hear(&rt);
}
