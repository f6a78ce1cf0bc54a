// One line for a case: what `write` answers, what `written_length` answers, and what the output holds after it. An answer is its number, its
// place and its length, as 01 has them: 0, 0 and the written length, or the refusal's number, its place, and 0.
use decoders::Head;
use encode::Refusal;

// What every byte of an output is before a writing.
const MARK: u8 = 0xaa;

// What a writing is given.
#[derive(Clone, Copy)]
pub(crate) struct Given<'a> {
    pub(crate) head: Head,
    pub(crate) inputs: &'a [u32],
    pub(crate) outputs: &'a [u32],
    pub(crate) items: &'a [u32],
    pub(crate) source: &'a [u8],
}

// The three numbers of a line. 0 is no RefusalKind, and both ends of a writing print all three.
fn answer(no: usize, place: usize, length: usize) {
    trial::number(no);
    trial::text(b" ");
    trial::number(place);
    trial::text(b" ");
    trial::number(length);
}

// A refusal's number and place have no ` at ` between them here, so its Display isn't it.
fn told(w: Result<usize, Refusal>) {
    match w {
        Ok(n) => answer(0, 0, n),
        Err(refusal) => answer(refusal.kind.number(), refusal.place, 0),
    }
}

// The output after a writing of so many bytes, or after a refused one.
fn left(n: Option<usize>, out: &[u8], wanted: &[u8]) {
    let Some((written, kept)) = out.split_at_checked(n.unwrap_or(0)) else {
        trial::text(b", WRONG BYTES\n");
        return;
    };
    if !wanted.starts_with(written) {
        trial::text(b", WRONG BYTES\n");
        return;
    }
    if !kept.iter().all(|b| *b == MARK) {
        trial::text(b", TOUCHED\n");
        return;
    }
    if n.is_none() {
        trial::text(b", untouched\n");
        return;
    }
    trial::text(b", same bytes, ");
    trial::number(kept.len());
    trial::text(b" kept behind\n");
}

// How many bytes are this one.
fn count(s: &[u8], b: u8) -> usize {
    s.iter()
        .fold(0usize, |n, x| n.wrapping_add(usize::from(*x == b)))
}

// The output after a writing from a source that has only s: how many bytes are s, how many still have their mark, and the five bytes at 42.
fn counted(out: &[u8]) {
    trial::text(b", from the source ");
    trial::number(count(out, b's'));
    trial::text(b", marks ");
    trial::number(count(out, MARK));
    trial::text(b", bytes at 42");
    if 47 <= out.len() {
        for b in &out[42..47] {
            trial::text(b" ");
            trial::number(usize::from(*b));
        }
    }
    trial::text(b"\n");
}

impl Given<'_> {
    // Writes into the output, every byte of it marked before, and asks for the length alone; how many bytes were written, none for a refusal.
    fn written(self, out: &mut [u8]) -> Option<usize> {
        trial::text(b" ");
        out.fill(MARK);
        let w = encoders::write(
            self.head,
            self.inputs,
            self.outputs,
            self.items,
            self.source,
            out,
        );
        told(w);
        trial::text(b", alone ");
        let alone = encoders::written_length(
            self.head,
            self.inputs,
            self.outputs,
            self.items,
            self.source,
        );
        told(alone);
        w.ok()
    }

    pub(crate) fn line(self, wanted: &[u8], out: &mut [u8]) {
        let n = self.written(out);
        left(n, out, wanted);
    }

    // Into an output that is too large to be compared: its bytes are counted.
    pub(crate) fn sums(self, name: &[u8], out: &mut [u8]) {
        trial::text(name);
        self.written(out);
        counted(out);
    }
}
