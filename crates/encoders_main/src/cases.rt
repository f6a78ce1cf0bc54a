// The writer, case by case. A line with no colon is a heading. A case is a line: its name, a colon, and what it is given. E, P and S are 01's
// loads of 11, 96 and 103 bytes, F the transaction of 907 bytes, B the same from a source that has only its bodies. Behind the letter stands
// what is changed; records and columns count from 0:
//     i, o, t   a number of an input, output, item record: i2.10=0 is record 2, column 10
//     c, f, h   the three counts, the flag, the length in bytes
//     j         junk in the three tables, from these numbers on
//     n, s, r   how many numbers of the tables, bytes of the source, bytes of the output are lent
//     w, m      what should be written instead: one byte, w123=9; m6,875,32: from byte 6 on, the source's 32 from 875 on
use crate::load;

// `parse` takes text, and can fail: these are bytes.
fn value(digits: &[u8]) -> u32 {
    digits.iter().fold(0u32, |n, d| {
        n.wrapping_mul(10).wrapping_add(u32::from(*d % 16))
    })
}

// The numbers behind a change's letter, up to three.
fn numbers(s: &[u8]) -> [u32; 3] {
    let mut all = [0u32; 3];
    let found = s.split(|b| !b.is_ascii_digit()).filter(|d| !d.is_empty());
    for (n, digits) in all.iter_mut().zip(found) {
        *n = value(digits);
    }
    all
}

fn case(line: &[u8]) {
    let Some(colon) = line.iter().position(|b| *b == b':') else {
        trial::text(line);
        trial::text(b"\n");
        return;
    };
    let (name, changes) = line.split_at(colon);
    trial::text(name);
    trial::text(b":");
    let mut l = load::full();
    for word in changes.split(|b| *b == b' ') {
        if let Some((letter, behind)) = word.split_first() {
            l.change(*letter, numbers(behind));
        }
    }
    l.show();
}

fn cases(text: &[u8]) {
    for line in text.split(|b| *b == b'\n') {
        if !line.is_empty() {
            case(line);
        }
    }
}

// Eight functions with a text each, since one with all of it would be 240 lines long.

// Loads; 6, 7 and 8. The witnesses of the 103 bytes are the last 7.
pub(crate) fn loads() {
    cases(
        b"01's loads, read and written back in exact room, in one byte less, in five more\n\
        11 bytes: E\n\
        11 bytes, one byte less: E r=10\n\
        11 bytes, five more: E r=16\n\
        96 bytes: P\n\
        96 bytes, one byte less: P r=95\n\
        96 bytes, five more: P r=101\n\
        103 bytes: S\n\
        103 bytes, one byte less: S r=102\n\
        103 bytes, five more: S r=108\n\
        907 bytes: F\n\
        907 bytes, one byte less: F r=906\n\
        907 bytes, five more: F r=912\n\
        907 bytes, no room: F r=0\n\
        6, issuance flag and null issuance; one null value is allowed, and an explicit 0 is not null\n\
        null issuance, record 2: F i2.10=0 i2.11=0 i2.12=0\n\
        null issuance, record 0: F i0.7=0 i0.8=0 i0.9=0 i0.10=0\n\
        keys alone null: F i0.10=0 w123=0 m124,156,751\n\
        keys explicit 0: F i2.11=0 i2.12=0 w306=0 w313=0\n\
        7, the whole number is judged and not its last byte\n\
        flag 2: F f=2\n\
        flag 256: F f=256\n\
        flag 257: F f=257\n\
        flag 4294967295: F f=4294967295\n\
        8, flag 1 and all witnesses empty; then each part that makes one not empty\n\
        empty witnesses: S i0.18=0 c1,1,0\n\
        no record at all: S c0,0,0\n\
        an amount proof: S i0.18=0 c1,1,0 i0.13=6 i0.14=1 w96=1 m97,6,1 w98=0\n\
        a keys proof: S i0.18=0 c1,1,0 i0.15=6 i0.16=1 w97=1 m98,6,1\n\
        a script item: S\n\
        a pegin item: S i0.18=0 i0.19=1 w98=0 w99=1\n\
        a surjection proof: S i0.18=0 c1,1,0 o0.10=6 o0.11=1 w98=0 w100=1 m101,6,1\n\
        a range proof: S i0.18=0 c1,1,0 o0.12=6 o0.13=1 w98=0 w101=1 m102,6,1\n",
    );
}

// 10 and 12. The vouts of the 907 bytes are written at 38, 188 and 229.
pub(crate) fn counts_and_outpoints() {
    cases(
        b"10, a count exceeds its table, by one and by far; whole records count\n\
        4 inputs in 3 records: F c4,4,4\n\
        5 outputs in 4 records: F c3,5,4\n\
        5 items in 4 records: F c3,4,5\n\
        4294967295 inputs: F c4294967295,4,4\n\
        4294967295 outputs: F c3,4294967295,4\n\
        4294967295 items: F c3,4,4294967295\n\
        3 inputs in 59 numbers: F n59,56,8\n\
        4 outputs in 55 numbers: F n60,55,8\n\
        4 items in 7 numbers: F n60,56,7\n\
        flag 0, 5 items in 4 records: P c1,1,5\n\
        records of 39, 27 and 3 numbers: S n39,27,3\n\
        no number, no source: P c0,0,0 n0,0,0 s=0 m5,92,4 m7,92,4\n\
        12, its three cases, and their neighbours that can be told apart\n\
        vout 1073741824: F i1.1=1073741824\n\
        vout 1073741824, issuance: F i2.1=1073741824\n\
        vout 4294967294: F i1.1=4294967294\n\
        vout 4294967295, pegin: F i1.2=1\n\
        vout 4294967295, issuance: F i2.1=4294967295\n\
        vout 4294967295, both: F i0.1=4294967295\n\
        vout 1073741823, both: F i0.1=1073741823\n\
        vout 1073741823, pegin: F i1.1=1073741823 i1.2=1 w191=127\n\
        vout 1073741823, no flag: F i1.1=1073741823 w191=63\n\
        vout 1073741822, both: F i0.1=1073741822 w38=254 w39=255 w40=255 w41=255\n",
    );
}

// 13, one number at a time.
pub(crate) fn prefixes() {
    cases(
        b"13, an input's flags and prefixes that are not listed; 257 and 264 would be, cut to a byte\n\
        flags 4: F i2.2=4\n\
        flags 4294967295: F i1.2=4294967295\n\
        amount prefix 2: F i2.7=2\n\
        amount prefix 7: F i2.7=7\n\
        amount prefix 10: F i2.7=10\n\
        amount prefix 257: F i2.7=257\n\
        keys prefix 2: F i0.10=2\n\
        keys prefix 7: F i0.10=7\n\
        keys prefix 10: F i0.10=10\n\
        keys prefix 264: F i0.10=264\n\
        13, an output's prefixes that are not listed; 256 would be, cut to a byte\n\
        asset prefix 2: F o1.0=2\n\
        asset prefix 9: F o1.0=9\n\
        asset prefix 12: F o1.0=12\n\
        asset prefix 256: F o3.0=256\n\
        value prefix 2: F o1.2=2\n\
        value prefix 7: F o1.2=7\n\
        value prefix 10: F o1.2=10\n\
        value prefix 256: F o3.2=256\n\
        nonce prefix 4: F o2.6=4\n\
        nonce prefix 256: F o0.6=256\n\
        nonce prefix 4294967295: F o2.6=4294967295\n",
    );
}

// A nonzero number where the rules say 0.
pub(crate) fn zeros() {
    cases(
        b"13, high or low not 0 with prefix 0, 8 or 9; with prefix 1 both are written\n\
        amount null, high 1: F i2.8=1\n\
        amount null, low 1: F i2.9=1\n\
        keys 8, high 1: F i0.11=1\n\
        keys 8, low 1: F i0.12=1\n\
        keys 9, low 1: F i0.10=9 i0.12=1\n\
        value null, high 1: F o3.4=1\n\
        value null, low 1: F o3.5=1\n\
        value 8, high 1: F o1.4=1\n\
        value 8, low 1: F o1.5=1\n\
        value 9, high 1: F o2.4=1\n\
        value 9, low 1: F o2.5=1\n\
        value 1, high 0, low 4294967040: F o0.4=0 o0.5=4294967040 w352=0 w353=255 w354=255 w355=255 w356=0\n\
        13, a number of an issuance without its flag\n\
        issuance position 1: F i1.6=1\n\
        amount prefix 1: F i1.7=1\n\
        amount high 1: F i1.8=1\n\
        amount low 1: F i1.9=1\n\
        keys prefix 1: F i1.10=1\n\
        keys high 1: F i1.11=1\n\
        keys low 1: F i1.12=1\n\
        pegin, keys low 1: F i1.1=0 i1.2=1 i1.12=1\n",
    );
}

// Witness numbers with flag 0, and the items' sums with flag 1.
pub(crate) fn witnesses() {
    cases(
        b"13, a witness number with flag 0\n\
        flag 0, amount proof position 1: P i0.13=1\n\
        flag 0, amount proof length 1: P i0.14=1\n\
        flag 0, keys proof position 1: P i0.15=1\n\
        flag 0, keys proof length 1: P i0.16=1\n\
        flag 0, first index 1: P i0.17=1\n\
        flag 0, script items 1: P i0.18=1\n\
        flag 0, pegin items 1: P i0.19=1\n\
        flag 0, surjection proof position 1: P o0.10=1\n\
        flag 0, surjection proof length 1: P o0.11=1\n\
        flag 0, range proof position 1: P o0.12=1\n\
        flag 0, range proof length 1: P o0.13=1\n\
        13, an item record with flag 0; if both its numbers are 0, the items don't add up\n\
        flag 0, item position 1: P c1,1,1 t0.0=1 t0.1=0\n\
        flag 0, item length 1: P c1,1,1 t0.0=0 t0.1=1\n\
        flag 0, item 0 0: P c1,1,1 t0.0=0 t0.1=0\n\
        13, a first index that isn't the sum of earlier items; items that don't add up; sums at 2^32 and above\n\
        first index 1: F i0.17=1\n\
        first index 2 behind 3 items: F i1.17=2\n\
        first index 4 behind 3 items: F i1.17=4\n\
        first index 0 behind 3 items: F i2.17=0\n\
        item count 3, sum 4: F c3,4,3\n\
        item count 4, sum 3: F i2.18=0\n\
        item count 4, sum 5: F i2.18=2\n\
        item count 1, no input: S c0,1,1\n\
        4294967295 + 1 items, first index 0: F i0.18=4294967295 i0.19=1 i1.17=0\n\
        2 * 4294967295 items, first index 4294967294: F i0.18=4294967295 i0.19=4294967295 i1.17=4294967294\n\
        item count 4, sum 4294967295 + 5: F i0.18=4294967295 i0.19=0 i1.17=4294967295 i2.17=4294967295 i2.18=5\n",
    );
}

// Positions, to the byte.
pub(crate) fn ends() {
    cases(
        b"An input's bodies that end at the source's end, and 13 one byte past it\n\
        txid at the end: F i0.0=875 m6,875,32\n\
        txid past it: F i0.0=876\n\
        input script at the end: F i0.3=904 m43,904,3\n\
        input script past it: F i0.3=905\n\
        issuance at the end: F i0.6=801 m50,801,64 m124,875,32\n\
        issuance past it: F i0.6=802\n\
        issuance, keys explicit, at the end: F i2.6=833 m240,833,64\n\
        issuance, keys explicit, past it: F i2.6=834\n\
        amount proof at the end: F i0.13=905 m860,905,2\n\
        amount proof past it: F i0.13=906\n\
        keys proof at the end: F i2.15=905 m883,905,2\n\
        keys proof past it: F i2.15=906\n\
        The same of outputs and items\n\
        asset at the end: F o0.1=874 m316,875,32\n\
        asset past it: F o0.1=875\n\
        commitment at the end: F o1.3=874 m393,875,32\n\
        commitment past it: F o1.3=875\n\
        nonce at the end: F o1.7=874 m426,875,32\n\
        nonce past it: F o1.7=875\n\
        output script at the end: F o1.8=903 m459,903,4\n\
        output script past it: F o1.8=904\n\
        surjection proof at the end: F o1.10=904 m892,904,3\n\
        surjection proof past it: F o1.10=905\n\
        range proof at the end: F o1.12=905 m896,905,2\n\
        range proof past it: F o1.12=906\n\
        item at the end: F t0.0=904 m866,904,3\n\
        item past it: F t0.0=905\n",
    );
}

// Positions of empty bodies, and positions far off.
pub(crate) fn positions() {
    cases(
        b"Bodies of length 0 at the source's end, and 13 one byte past it; shorter sources\n\
        empty bodies at the end: F i1.3=907 i1.13=907 i1.15=907 o0.8=907 o0.10=907 o0.12=907 t1.0=907\n\
        empty input script past it: F i1.3=908\n\
        empty amount proof past it: F i1.13=908\n\
        empty keys proof past it: F i1.15=908\n\
        empty output script past it: F o0.8=908\n\
        empty surjection proof past it: F o0.10=908\n\
        empty range proof past it: F o0.12=908\n\
        empty item past it: F t1.0=908\n\
        source of 906 bytes: F s=906\n\
        no source: F s=0\n\
        13, positions whose sum with the length is 2^32 or above\n\
        txid at 4294967264: F i0.0=4294967264\n\
        input script at 4294967293: F i0.3=4294967293\n\
        input script of 4294967295: F i0.4=4294967295\n\
        issuance at 4294967190: F i0.6=4294967190\n\
        asset at 4294967263: F o0.1=4294967263\n\
        commitment at 4294967295: F o1.3=4294967295\n\
        nonce at 4294967263: F o1.7=4294967263\n\
        output script at 4294967292: F o1.8=4294967292\n\
        item at 4294967293: F t0.0=4294967293\n\
        item of 4294967295 at 4294967295: F t3.0=4294967295 t3.1=4294967295\n",
    );
}

// What is not read, and which of two faults is told.
pub(crate) fn rest() {
    cases(
        b"Not read, the head's length, positions of null fields and of an explicit value, records behind the counts, the source's other bytes\n\
        head length 0: F h=0\n\
        head length 4294967295: F h=4294967295\n\
        null and explicit positions 4294967295: F o0.3=4294967295 o0.7=4294967295 o3.1=4294967295 o3.3=4294967295\n\
        null and explicit positions 0: F o0.3=0 o0.7=0 o3.1=0 o3.3=0\n\
        junk behind the counts, flag 1: S j20,14,2\n\
        junk behind the counts, flag 0: P j20,14,0\n\
        keys prefix 9, 8 in the source: F i0.10=9 w123=9\n\
        asset prefix 11, 10 in the source: F o1.0=11 w359=11\n\
        bodies alone in the source: B\n\
        Two faults in the records\n\
        13 before 12 and 6: F i2.10=0 i2.11=0 i2.12=0 i2.1=1073741824 i2.17=2\n\
        12 before 6: F i2.10=0 i2.11=0 i2.12=0 i2.1=1073741824\n\
        record 0's 12 before record 1's 13: F i0.1=1073741824 i1.2=4\n\
        record 0's 6 before record 1's 13: F i0.7=0 i0.8=0 i0.9=0 i0.10=0 i1.2=4\n\
        record 0's 6 before record 1's 12: F i0.7=0 i0.8=0 i0.9=0 i0.10=0 i1.2=1\n\
        an input's 6 before an output's 13: F i2.10=0 i2.11=0 i2.12=0 o0.0=2\n\
        an output's 13 before an item's: F o2.0=2 t0.0=905\n\
        Two faults, one of them beside the records\n\
        10 before 7: F c3,4,5 f=2\n\
        10 before 13: F c4,4,4 i0.2=4\n\
        7 before 13: F f=2 i0.2=4\n\
        7 before 12: F f=2 i0.1=1073741824\n\
        an item's 13 before the sum's: F c3,4,3 t1.0=908\n\
        the sum's 13 before 8: S i0.18=0\n\
        a record's 13 before 8: S i0.18=0 c1,1,0 o0.0=2\n\
        12 before 8: S i0.18=0 c1,1,0 i0.1=1073741824\n\
        8 before 14: S i0.18=0 c1,1,0 r=0\n\
        13 before 14: F i2.2=4 r=0\n\
        The comparison itself, with a byte that is not written\n\
        one byte wanted otherwise: F w906=0\n",
    );
}
