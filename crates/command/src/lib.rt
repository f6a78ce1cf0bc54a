// What the programs that take one transaction share: the input, from a file or from standard input, and pieces of the lines they print.
#![tactic(auto)]

ghost use Rattle.std.specs.Prelude.{◌≤◌, length, IfOk, IfSome};
ghost use Rattle.command.specs.Within.{Within};

use std::env::{Env, FillError};
use std::fmt::{Display, InlineText};
use std::fs::{File, Files};
use std::io::{Error, Input, Read};

const STDOUT_FILENO: i32 = 1;

const STDERR_FILENO: i32 = 2;

// The input that was taken. Whole: it ended after so many bytes, which stand at the buffer's start. Longer: the buffer is full, and at least
// one byte follows. No Option: `take` has one around it, and there None says that no input came.
#[derive(Clone, Copy)]
pub enum Taken {
    Whole(usize),
    Longer,
}

// One line on standard error: what failed, a colon and the reason. No text by Display: a file's name may be bytes that are no UTF-8.
fn complain(what: &[u8], reason: &str) {
    io::write_all(STDERR_FILENO, what);
    io::write_all(STDERR_FILENO, b": ");
    io::write_all(STDERR_FILENO, reason.as_bytes());
    io::write_all(STDERR_FILENO, b"\n");
}

// The same, with the system's words for the error. Its number, which std puts after them, is left out.
fn fail(what: &[u8], error: Error) {
    let text = InlineText::<128>::of(error);
    let all = text.as_str();
    match all.split_once(" (os error ") {
        Some((reason, _)) => complain(what, reason),
        None => complain(what, all),
    }
}

// Reads until the input ends or the buffer is full. A read that brings less than was asked for is no end; only one of 0 bytes is.
fn fill<I: Read>(input: &mut I, buffer: &mut [u8]) -> Result<Taken, Error>
    ensures { IfOk result (λ taken. Within taken (length buffer.old)) }
{
    // counted by hand: each read says how far the next one begins
    let mut n = 0;
    while n < buffer.len() {
        let k = input.read(&mut buffer[n..])?;
        if k == 0 {
            return Ok(Taken::Whole(n));
        }
        n += k;
    }
    let mut one = [0u8; 1];
    if input.read(&mut one)? == 0 {
        return Ok(Taken::Whole(n));
    }
    Ok(Taken::Longer)
}

// The same, and a read that fails is told on standard error, by the input's name.
fn told<I: Read + Drop>(mut input: I, name: &[u8], buffer: &mut [u8]) -> Option<Taken>
    ensures { IfSome result (λ taken. Within taken (length buffer.old)) }
{
    match fill(&mut input, buffer) {
        Ok(taken) => Some(taken),
        Err(e) => {
            fail(name, e);
            None
        }
    }
}

// std opens files by text alone, so a name that is not UTF-8 is told like a file that can't be opened.
fn from_path<R: Files>(rt: &R, path: &[u8], buffer: &mut [u8]) -> Option<Taken>
    ensures { IfSome result (λ taken. Within taken (length buffer.old)) }
{
    let Ok(name) = str::from_utf8(path) else {
        complain(path, "File name is not UTF-8");
        return None;
    };
    match File::open(rt, name) {
        Ok(file) => told(file, path, buffer),
        Err(e) => {
            fail(path, e);
            None
        }
    }
}

// Reads the program's input into the buffer: the file that its one argument names; standard input where there is none, or `-`. Whatever goes
// wrong is one line on standard error, and there is no input: the usage where there are more arguments, else the file's name and the reason.
// Nor is there one where help is asked for: usage and help are printed and nothing is read. A file of that name is `./-h`.
pub fn take<R: Env + Files + Input>(
    rt: &R,
    usage: &[u8],
    help: &[u8],
    buffer: &mut [u8],
) -> Option<Taken>
    ensures { IfSome result (λ taken. Within taken (length buffer.old)) }
{
    let mut path = io::buffer();
    let more = rt.arg(2, &mut path);
    if !matches!(more, Err(FillError::NotPresent)) {
        io::write_all(STDERR_FILENO, usage);
        return None;
    }
    let n = match rt.arg(1, &mut path) {
        Ok(n) => n,
        Err(FillError::NotPresent) => return told(rt.reader(), b"standard input", buffer),
        Err(FillError::TooLong) => {
            complain(b"file name", "File name too long");
            return None;
        }
    };
    match &path[..n] {
        b"-" => told(rt.reader(), b"standard input", buffer),
        b"-h" | b"--help" => {
            text(usage);
            text(help);
            None
        }
        name => from_path(rt, name, buffer),
    }
}

// Takes the program's input, and hands back what came: all of it, or a full buffer where more follows. The buffer has one byte more than a
// transaction can have: what follows moves no answer (show/proofs/Theorems: limit_settles).
pub fn with_input<'a, R: Env + Files + Input>(
    rt: &R,
    usage: &[u8],
    help: &[u8],
    buffer: &'a mut [u8; 4000001],
) -> Option<&'a [u8]>
    ensures { IfSome result (λ piece. length piece.now ≤ 4000001) }
{
    match take(rt, usage, help, buffer)? {
        Taken::Whole(n) => Some(&buffer[..n]),
        Taken::Longer => Some(buffer),
    }
}

// By io, here and in the programs: `print!` would want the runtime in every function that prints, and hand back a failure that nobody reads.
pub fn text(s: &[u8]) {
    io::write_all(STDOUT_FILENO, s);
}

pub fn number(n: u64) {
    io::print_decimal(STDOUT_FILENO, n);
}

// A refusal as it shows itself, its number and place, with no line end.
pub fn refused<D: Display + Drop>(refusal: D) {
    text(b"refused: ");
    text(InlineText::<64>::of(refusal).as_str().as_bytes());
}
