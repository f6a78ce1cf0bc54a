// A reading's state and tables between calls: what has ended stays so; empty pieces, tables of another size (10) and forged states (11) change
// nothing. Before each call every number of the tables it is handed is marked: "untouched" says that all marks are still there. Only the
// tables in mid-reading stay as they are from call to call.
#![tactic(auto)]

use decoders::TransactionDecoder;
use trial::{Reading, Tables};

// Marks the tables, feeds a piece. This and `finish` are one call apart, which a closure would make no shorter.
fn feed<const I: usize, const O: usize, const N: usize>(
    t: &mut Tables<I, O, N>,
    d: TransactionDecoder,
    piece: &[u8],
) -> TransactionDecoder {
    t.mark();
    let f = t.push(d, piece);
    t.line(f.answer, f.taken);
    f.decoder
}

// Marks the tables, finishes.
fn finish<const I: usize, const O: usize, const N: usize>(
    t: &mut Tables<I, O, N>,
    d: TransactionDecoder,
) -> TransactionDecoder {
    t.mark();
    let f = t.end(d);
    t.line(f.answer, f.taken);
    f.decoder
}

type Room = Tables<20, 14, 2>;

// A fresh start with room for one record each; the state does not depend on what the tables hold.
fn fresh() -> TransactionDecoder {
    let mut t = Room::marked();
    t.start()
}

// The same tables, marked, for each call.
fn push(d: TransactionDecoder, piece: &[u8]) -> TransactionDecoder {
    let mut t = Room::marked();
    feed(&mut t, d, piece)
}

fn end(d: TransactionDecoder) -> TransactionDecoder {
    let mut t = Room::marked();
    finish(&mut t, d)
}

// Tables of another size: a piece, and finish.
fn sized<const I: usize, const O: usize, const N: usize>(
    mut t: Tables<I, O, N>,
    d: TransactionDecoder,
) {
    let e = feed(&mut t, d, b"\x02");
    finish(&mut t, e);
}

fn ended() {
    // finish on a fresh start: 1 at 0; again; a piece after it
    let a = end(end(fresh()));
    push(a, b"\x02\x00\x00\x00\x00\x00\x00\x00\x00\x00\x00");
    // empty pieces while more is wanted change nothing; then all eleven bytes; then pieces and finishes: the head again, nothing taken
    let b = push(
        push(fresh(), b""),
        b"\x02\x00\x00\x00\x00\x00\x00\x00\x00\x00\x00",
    );
    let c = push(push(b, b"\x00"), b"");
    end(end(c));
    // cut: more; 1 at 10 at finish; no byte after that, and the tables are set to 0 each time
    let d = end(push(fresh(), b"\x02\x00\x00\x00\x00\x00\x00\x00\x00\x00"));
    end(push(push(d, b"\x00"), b""));
    // refused: 6 at 47, and bytes behind are not taken; the same answer ever after, the tables set to 0 each time
    let e = push(
        fresh(),
        b"\x02\x00\x00\x00\x00\x01eeeeeeeeeeeeeeeeeeeeeeeeeeeeeeee\x00\x00\x00\x80\x00\xfe\xff\xff\xffeeeeeeeeeeeeeeeeeeeeeeeeeeeeeeeeeeeeeeeeeeeeeeeeeeeeeeeeeeeeeeee\x00\x00more",
    );
    end(end(push(
        push(e, b"\x02\x00\x00\x00\x00\x00\x00\x00\x00\x00\x00"),
        b"",
    )));
}

// A number more or less in one table, or one number in all.
fn sizes() {
    let d = fresh();
    sized(Tables::<21, 14, 2>::marked(), d);
    sized(Tables::<19, 14, 2>::marked(), d);
    sized(Tables::<20, 15, 2>::marked(), d);
    sized(Tables::<20, 13, 2>::marked(), d);
    sized(Tables::<20, 14, 3>::marked(), d);
    sized(Tables::<20, 14, 1>::marked(), d);
    sized(Tables::<1, 0, 0>::marked(), d);
}

fn sizes_later() {
    // in the middle of a reading, after the end, after a refusal
    let m = push(fresh(), b"\x02\x00\x00\x00\x00\x01");
    sized(Tables::<21, 14, 2>::marked(), m);
    let f = push(fresh(), b"\x02\x00\x00\x00\x00\x00\x00\x00\x00\x00\x00");
    sized(Tables::<20, 14, 1>::marked(), f);
    let r = push(
        fresh(),
        b"\x02\x00\x00\x00\x00\x01eeeeeeeeeeeeeeeeeeeeeeeeeeeeeeee\x00\x00\x00\x80\x00\xfe\xff\xff\xffeeeeeeeeeeeeeeeeeeeeeeeeeeeeeeeeeeeeeeeeeeeeeeeeeeeeeeeeeeeeeeee\x00\x00",
    );
    sized(Tables::<20, 15, 2>::marked(), r);
}

// What a state that comes back from 10 or 11 is worth: it is the one that was handed in.
fn forged() {
    // a stage that isn't there: 11, also at finish, and before 10
    let mut d = fresh();
    d.field.stage = 27;
    let mut g = end(push(d, b"\x02\x00\x00\x00\x00\x00\x00\x00\x00\x00\x00"));
    sized(Tables::<21, 14, 2>::marked(), g);
    // the state came back unchanged: mended, it reads
    g.field.stage = 0;
    push(g, b"\x02\x00\x00\x00\x00\x00\x00\x00\x00\x00\x00");
}

fn out_of_range() {
    // more inputs, outputs, items than records; past the limit; a stage's own numbers
    let mut a = fresh();
    a.counts.inputs = 2;
    push(a, b"\x02");
    let mut b = fresh();
    b.counts.outputs = 2;
    push(b, b"\x02");
    let mut c = fresh();
    c.counts.items = 2;
    push(c, b"\x02");
    let mut d = fresh();
    d.taken = 4000001;
    push(d, b"\x02");
    let mut e = fresh();
    e.field.have = 4;
    push(e, b"\x02");
    let mut f = fresh();
    f.spot.issuance = 2;
    end(f);
}

fn out_of_range_ended() {
    // finished with no byte taken; refused with number 9
    let mut a = fresh();
    a.field.stage = 25;
    push(a, b"");
    let mut b = end(fresh());
    b.field.value = 9;
    end(b);
}

// 01's load of 103 bytes, and its tables at many cuts: a number stands there from its field's last byte on. The tables held something else, and
// are now as they are between calls.
fn shown() {
    let mut r = Reading::<20, 14, 2>::new();
    let cuts: [&[u8]; 22] = [
        // after 37 bytes, within the txid; 38, the txid; 42, the vout; 43, the script; 46, within the sequence; 47, the sequence
        b"\x02\x00\x00\x00\x01\x01eeeeeeeeeeeeeeeeeeeeeeeeeeeeeee",
        b"e",
        b"\x00\x00\x00\x00",
        b"\x00",
        b"\xfe\xff\xff",
        b"\xff",
        // 48, the output count; 49, the asset's prefix; 81, its part; 82, the value's prefix; 89, within the amount; 90, the amount; 91, the
        // nonce's prefix; 92, the script
        b"\x01",
        b"\x01",
        b"eeeeeeeeeeeeeeeeeeeeeeeeeeeeeeee",
        b"\x01",
        b"\x00\x00\x00\x00\x00\x00\x01",
        b"\x90",
        b"\x00",
        b"\x00",
        // 96, the locktime; 97 and 98, the input's proofs; 99, the script count; 100, the item; 101, the pegin count; 102 and 103, the
        // output's proofs
        b"\x00\x00\x00\x00",
        b"\x00",
        b"\x00",
        b"\x01",
        b"\x00",
        b"\x00",
        b"\x00",
        b"\x00",
    ];
    for piece in cuts {
        r.fed.taken = 0;
        r.feed(piece);
        r.line();
    }
}

// A piece, and an empty one behind it.
fn idle(d: TransactionDecoder, piece: &[u8]) -> TransactionDecoder {
    push(push(d, piece), b"")
}

// Empty pieces in a txid, a vout, a length's further bytes, a body, a sequence, an amount, a locktime, an item, behind the end; then in a
// count's further bytes. What a piece enters shows among the marks.
fn empty_pieces() {
    let a = idle(fresh(), b"\x02\x00\x00\x00\x01\x01eeee");
    let b = idle(a, b"eeeeeeeeeeeeeeeeeeeeeeeeeeee\x01\x00");
    let c = idle(b, b"\x00\x40\xfd");
    let d = idle(
        c,
        b"\xfd\x00eeeeeeeeeeeeeeeeeeeeeeeeeeeeeeeeeeeeeeeeeeeeeeeeeeeeeeeeeeeeeeeeeeeeeeeeeeeeeeeeeeeeeeeeeeeeeeeeeeee",
    );
    let e = idle(
        d,
        b"eeeeeeeeeeeeeeeeeeeeeeeeeeeeeeeeeeeeeeeeeeeeeeeeeeeeeeeeeeeeeeeeeeeeeeeeeeeeeeeeeeeeeeeeeeeeeeeeeeeeeeeeeeeeeeeeeeeeeeeeeeeeeeeeeeeeeeeeeeeeeeeeeeeeeeeee\xfe\xff",
    );
    let f = idle(
        e,
        b"\xff\xff\x01\x01eeeeeeeeeeeeeeeeeeeeeeeeeeeeeeee\x01\x00\x00\x00\x00",
    );
    let g = idle(f, b"\x00\x00\x01\x90\x00\x00\x00\x00");
    let h = idle(g, b"\x00\x00\x00\x00\x01\x03e");
    idle(h, b"ee\x00\x00\x00");
    push(idle(fresh(), b"\x02\x00\x00\x00\x00\xfd\x01"), b"\x01");
}

// A reading that finished, with one number more: head numbers that no 11 bytes have.
fn out_of_range_finished() {
    // finished with flag 255 and one input; with flag 1; with an item; with an index
    let d = push(fresh(), b"\x02\x00\x00\x00\x00\x00\x00\x00\x00\x00\x00");
    let mut a = d;
    a.counts.flag = 255;
    a.counts.inputs = 1;
    push(a, b"");
    let mut b = d;
    b.counts.flag = 1;
    end(b);
    let mut c = d;
    c.counts.items = 1;
    push(c, b"");
    let mut e = d;
    e.spot.index = 1;
    push(e, b"");
}

// A number before it is read, or a byte more or less than the fields before have.
fn out_of_range_early() {
    let mut a = fresh();
    a.counts.locktime = 1;
    push(a, b"\x02");
    let mut b = fresh();
    b.taken = 1;
    push(b, b"\x02");
    // in an input's script: an item; three further bytes; the input's txid behind one byte less
    let d = push(
        fresh(),
        b"\x02\x00\x00\x00\x01\x01eeeeeeeeeeeeeeeeeeeeeeeeeeeeeeee\x00\x00\x00\x00\xfd",
    );
    let mut e = d;
    e.counts.items = 1;
    push(e, b"");
    let mut f = d;
    f.field.width = 3;
    push(f, b"");
    let mut g = d;
    g.taken = 42;
    push(g, b"");
}

// A witness with flag 0, and behind as few bytes as have none; refusal 7 anywhere but at 4.
fn out_of_range_late() {
    let d = push(
        fresh(),
        b"\x02\x00\x00\x00\x01\x01eeeeeeeeeeeeeeeeeeeeeeeeeeeeeeee\x00\x00\x00\x00\x00\xfe\xff\xff\xff\x00\x00\x00\x00\x00",
    );
    let mut a = d;
    a.counts.flag = 0;
    push(a, b"");
    let mut b = d;
    b.taken = 11;
    push(b, b"");
    let mut c = push(fresh(), b"\x02\x00\x00\x00\x02\x00\x00\x00\x00\x00\x00");
    c.field.have = 5;
    end(c);
}

fn main() {
    ended();
    shown();
    empty_pieces();
    sizes();
    sizes_later();
    forged();
    out_of_range();
    out_of_range_ended();
    out_of_range_finished();
    out_of_range_early();
    out_of_range_late();
}
