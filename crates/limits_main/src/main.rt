// The limit of 4,000,000 bytes: fields that end there pass, and those that end one byte later are refused, with 2 at the place that document
// 01 gives. The first input's script has 3,999,744 + low bytes, all from one buffer; what lies behind it comes up to the limit.
#![tactic(auto)]

use trial::Reading;

// 47 bytes: version 2, the flag, so many inputs, txid, vout with its highest byte, and the script's length, 0x003d0800 + low, in five bytes.
fn head(flag: u8, inputs: u8, top: u8, low: u8) -> [u8; 47] {
    let mut s = [0u8; 47];
    s[0] = 2;
    s[4] = flag;
    s[5] = inputs;
    s[41] = top;
    s[42] = 0xfe;
    s[43] = low;
    s[44] = 0x08;
    s[45] = 0x3d;
    s
}

// The script's bytes start at 47; the tail starts behind them, with the sequence.
fn limit(flag: u8, inputs: u8, top: u8, low: u8, tail: &[u8]) {
    let start = head(flag, inputs, top, low);
    let buffer = [0xeeu8; 65536];
    let count = 3999744 + usize::from(low);
    let mut r = Reading::<40, 14, 2>::new();
    r.long(&start, &buffer, count, tail);
    r.line();
}

fn counts_and_numbers() {
    // locktime ends at 4,000,000: accepted; one past: 2 at its start
    limit(0, 1, 0x00, 0xc8, b"\x00\x00\x00\x00\x00\x00\x00\x00\x00");
    limit(0, 1, 0x00, 0xc9, b"\x00\x00\x00\x00\x00\x00\x00\x00\x00");
    // a script body ends at 4,000,000: it passes, and the sequence behind it doesn't; one past: 2 at its length
    limit(0, 1, 0x00, 0xd1, b"\x00\x00\x00\x00\x00\x00\x00\x00\x00");
    limit(0, 1, 0x00, 0xd2, b"\x00\x00\x00\x00\x00\x00\x00\x00\x00");
    // the sequence one past; it ends at 4,000,000: the count behind it doesn't pass
    limit(0, 1, 0x00, 0xce, b"\x00\x00\x00\x00\x00\x00\x00\x00\x00");
    limit(0, 1, 0x00, 0xcd, b"\x00\x00\x00\x00\x00\x00\x00\x00\x00");
    // a count's further bytes one past; ending at 4,000,000: 4, or 3, goes before 2 of what follows
    limit(0, 1, 0x00, 0xcb, b"\x00\x00\x00\x00\xfd\x01\x00");
    limit(0, 1, 0x00, 0xca, b"\x00\x00\x00\x00\xfd\xfd\x00");
    limit(0, 1, 0x00, 0xca, b"\x00\x00\x00\x00\xfd\xfc\x00");
    // a count's only byte is the last: 4 for two outputs; 2 for the locktime, for the prefix
    limit(0, 1, 0x00, 0xcc, b"\x00\x00\x00\x00\x02");
    limit(0, 1, 0x00, 0xcc, b"\x00\x00\x00\x00\x00");
    limit(0, 1, 0x00, 0xcc, b"\x00\x00\x00\x00\x01");
}

fn assets_and_amounts() {
    // an asset's prefix is the last byte: 2 for the value's prefix; 5; 2 for its part
    limit(0, 1, 0x00, 0xcb, b"\x00\x00\x00\x00\x01\x00");
    limit(0, 1, 0x00, 0xcb, b"\x00\x00\x00\x00\x01\x02");
    limit(0, 1, 0x00, 0xcb, b"\x00\x00\x00\x00\x01\x01");
    // an asset's part one past; ending at 4,000,000
    limit(
        0,
        1,
        0x00,
        0xac,
        b"\x00\x00\x00\x00\x01\x01eeeeeeeeeeeeeeeeeeeeeeeeeeeeeeee",
    );
    limit(
        0,
        1,
        0x00,
        0xab,
        b"\x00\x00\x00\x00\x01\x01eeeeeeeeeeeeeeeeeeeeeeeeeeeeeeee\x00",
    );
    // an explicit amount one past; ending at 4,000,000
    limit(
        0,
        1,
        0x00,
        0xc3,
        b"\x00\x00\x00\x00\x01\x00\x01\x00\x00\x00\x00\x00\x00\x00\x01",
    );
    limit(
        0,
        1,
        0x00,
        0xc2,
        b"\x00\x00\x00\x00\x01\x00\x01\x00\x00\x00\x00\x00\x00\x00\x01\x00",
    );
}

fn output_scripts() {
    // an output script: its length past; body one past, two forms; empty body at the end; length's further bytes past; 3 before 2
    limit(0, 1, 0x00, 0xc9, b"\x00\x00\x00\x00\x01\x00\x00\x00\x00");
    limit(
        0,
        1,
        0x00,
        0xc8,
        b"\x00\x00\x00\x00\x01\x00\x00\x00\x01\x00",
    );
    limit(
        0,
        1,
        0x00,
        0xc8,
        b"\x00\x00\x00\x00\x01\x00\x00\x00\x00\x00\x00\x00\x00",
    );
    limit(
        0,
        1,
        0x00,
        0xc8,
        b"\x00\x00\x00\x00\x01\x00\x00\x00\xfd\xfd\x00",
    );
    limit(
        0,
        1,
        0x00,
        0xc6,
        b"\x00\x00\x00\x00\x01\x00\x00\x00\xfd\xfc\x00",
    );
    limit(
        0,
        1,
        0x00,
        0xc6,
        b"\x00\x00\x00\x00\x01\x00\x00\x00\xfd\xfd\x00",
    );
}

// As `stacks`, three cases: they are lists of numbers, and what is the same in them is `limit`.
fn second_inputs() {
    // a second input: txid one past; ending at 4,000,000; vout one past
    limit(
        0,
        2,
        0x00,
        0xae,
        b"\x00\x00\x00\x00eeeeeeeeeeeeeeeeeeeeeeeeeeeeeeee",
    );
    limit(
        0,
        2,
        0x00,
        0xad,
        b"\x00\x00\x00\x00eeeeeeeeeeeeeeeeeeeeeeeeeeeeeeee\x00\x00\x00\x00",
    );
    limit(
        0,
        2,
        0x00,
        0xaa,
        b"\x00\x00\x00\x00eeeeeeeeeeeeeeeeeeeeeeeeeeeeeeee\x00\x00\x00\x00",
    );
}

fn issuances() {
    // an issuance: blinding nonce, entropy, explicit amount one past; keys' prefix past; null and ending at 4,000,000: 6
    limit(
        0,
        1,
        0x80,
        0xae,
        b"\x00\x00\x00\x00eeeeeeeeeeeeeeeeeeeeeeeeeeeeeeee",
    );
    limit(
        0,
        1,
        0x80,
        0x8e,
        b"\x00\x00\x00\x00eeeeeeeeeeeeeeeeeeeeeeeeeeeeeeeeeeeeeeeeeeeeeeeeeeeeeeeeeeeeeeee",
    );
    limit(
        0,
        1,
        0x80,
        0x85,
        b"\x00\x00\x00\x00eeeeeeeeeeeeeeeeeeeeeeeeeeeeeeeeeeeeeeeeeeeeeeeeeeeeeeeeeeeeeeee\x01\x00\x00\x00\x00\x00\x00\x00\x01",
    );
    limit(
        0,
        1,
        0x80,
        0x8c,
        b"\x00\x00\x00\x00eeeeeeeeeeeeeeeeeeeeeeeeeeeeeeeeeeeeeeeeeeeeeeeeeeeeeeeeeeeeeeee\x00\x00",
    );
    limit(
        0,
        1,
        0x80,
        0x8b,
        b"\x00\x00\x00\x00eeeeeeeeeeeeeeeeeeeeeeeeeeeeeeeeeeeeeeeeeeeeeeeeeeeeeeeeeeeeeeee\x00\x00",
    );
}

fn witnesses() {
    // flag 2, or 1, and the locktime ends at 4,000,000: 7; 2 for the amount proof's length
    limit(2, 1, 0x00, 0xc8, b"\x00\x00\x00\x00\x00\x00\x00\x00\x00");
    limit(1, 1, 0x00, 0xc8, b"\x00\x00\x00\x00\x00\x00\x00\x00\x00");
    // witnesses that end at 4,000,000: empty ones, 8; one item, accepted; one past
    limit(
        1,
        1,
        0x00,
        0xc4,
        b"\x00\x00\x00\x00\x00\x00\x00\x00\x00\x00\x00\x00\x00",
    );
    limit(
        1,
        1,
        0x00,
        0xc3,
        b"\x00\x00\x00\x00\x00\x00\x00\x00\x00\x00\x00\x01\x00\x00",
    );
    limit(
        1,
        1,
        0x00,
        0xc4,
        b"\x00\x00\x00\x00\x00\x00\x00\x00\x00\x00\x00\x01\x00\x00",
    );
}

fn stacks() {
    // a stack's count is the last byte: 4 for two items in one record; 2 for an item's length; an item one past
    limit(
        1,
        1,
        0x00,
        0xc5,
        b"\x00\x00\x00\x00\x00\x00\x00\x00\x00\x00\x00\x02",
    );
    limit(
        1,
        1,
        0x00,
        0xc5,
        b"\x00\x00\x00\x00\x00\x00\x00\x00\x00\x00\x00\x01",
    );
    limit(
        1,
        1,
        0x00,
        0xc4,
        b"\x00\x00\x00\x00\x00\x00\x00\x00\x00\x00\x00\x01\x01\x00",
    );
}

fn main() {
    counts_and_numbers();
    assets_and_amounts();
    output_scripts();
    second_inputs();
    issuances();
    witnesses();
    stacks();
}
