// The count reader on document 01's loads and their cut forms: a line for each, the value or the refusal's number and place.
#![tactic(auto)]

use std::fmt::InlineText;

const STDOUT_FILENO: i32 = 1;

fn show(s: &[u8]) {
    let text = match encode::read_count(s) {
        Ok(n) => InlineText::<64>::of(n),
        Err(refusal) => InlineText::<64>::of(refusal),
    };
    io::write_all(STDOUT_FILENO, text.as_str().as_bytes());
    io::write_all(STDOUT_FILENO, b"\n");
}

fn main() {
    // whole: itself, 253, not shortest; 65,536, not shortest; 4,294,967,296, not shortest, the greatest
    show(b"\x00");
    show(b"\xfc");
    show(b"\xfd\xfd\x00");
    show(b"\xfd\xff\xff");
    show(b"\xfd\xfc\x00");
    show(b"\xfe\x00\x00\x01\x00");
    show(b"\xfe\xff\xff\x00\x00");
    show(b"\xff\x00\x00\x00\x00\x01\x00\x00\x00");
    show(b"\xff\xff\xff\xff\xff\x00\x00\x00\x00");
    show(b"\xff\xff\xff\xff\xff\xff\xff\xff\xff");
    // each byte at its place
    show(b"\xfe\x04\x03\x02\x01");
    show(b"\xff\x08\x07\x06\x05\x04\x03\x02\x01");
    // cut
    show(b"");
    show(b"\xfd");
    show(b"\xfd\xfd");
    show(b"\xfe\x00\x00\x01");
    show(b"\xff\x00\x00\x00\x00\x01\x00\x00");
    // what stands behind is not looked at
    show(b"\xfc\xff\xff");
    show(b"\xfd\xfd\x00\xff");
    show(b"\xfd\xfc\x00\xff");
}
