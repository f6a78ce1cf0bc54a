// Records, field by field.
use crate::field;
use command::text;
use confidential::Value;

// By number, as the record has them: a cell of a lent table. A Display would need a type that stands for nothing else.
fn flags(n: u32) {
    text(b"  flags: ");
    match n {
        0 => text(b"none\n"),
        1 => text(b"pegin\n"),
        2 => text(b"issuance\n"),
        _ => text(b"pegin, issuance\n"),
    }
}

// Blinding nonce and entropy stand at the issuance's position, amount and keys behind them.
fn issuance(s: &[u8], r: &[u32; 20]) {
    let at = r[6] as usize;
    if at == 0 {
        text(b"  issuance: none\n");
        return;
    }
    field::number(b"  issuance: at ", r[6]);
    field::hash(b"    blinding nonce: ", s, at);
    field::hash(b"    entropy: ", s, at + 32);
    field::value(b"    amount: ", s, r[7], at + 64, r[8], r[9]);
    let width = confidential::width::<Value>(r[7] as usize).unwrap_or(0);
    field::value(b"    keys: ", s, r[10], at + 64 + width, r[11], r[12]);
}

// So many items from the first one on, below their number.
fn stack(name: &[u8], count: u32, first: u32, s: &[u8], items: &[u32]) {
    field::number(name, count);
    let (rows, _) = items.as_chunks::<2>();
    for k in first..first.saturating_add(count) {
        let [at, length] = rows.get(k as usize).copied().unwrap_or([0; 2]);
        text(b"    item ");
        command::number(u64::from(k));
        field::body(b": ", s, at, length);
    }
}

fn witness(s: &[u8], r: &[u32; 20], items: &[u32]) {
    field::body(b"  amount proof: ", s, r[13], r[14]);
    field::body(b"  keys proof: ", s, r[15], r[16]);
    field::number(b"  first item: ", r[17]);
    stack(b"  script items: ", r[18], r[17], s, items);
    stack(
        b"  pegin items: ",
        r[19],
        r[17].saturating_add(r[18]),
        s,
        items,
    );
}

fn input(k: u32, s: &[u8], r: &[u32; 20]) {
    field::number(b"input ", k);
    field::hash(b"  txid: ", s, r[0] as usize);
    field::number(b"  vout: ", r[1]);
    flags(r[2]);
    field::body(b"  script: ", s, r[3], r[4]);
    field::number(b"  sequence: ", r[5]);
    issuance(s, r);
}

pub(crate) fn inputs(count: u32, s: &[u8], inputs: &[u32], items: &[u32]) {
    let (rows, _) = inputs.as_chunks::<20>();
    for (k, r) in (0..count).zip(rows) {
        input(k, s, r);
        witness(s, r, items);
    }
}

fn fee(r: &[u32; 14]) {
    if encoders::is_fee(*r) {
        text(b"  fee: yes\n");
        return;
    }
    text(b"  fee: no\n");
}

fn output(k: u32, s: &[u8], r: &[u32; 14]) {
    field::number(b"output ", k);
    field::token(b"  asset: ", s, r[0], r[1] as usize);
    field::value(b"  value: ", s, r[2], r[3] as usize, r[4], r[5]);
    field::token(b"  nonce: ", s, r[6], r[7] as usize);
    field::body(b"  script: ", s, r[8], r[9]);
    field::body(b"  surjection proof: ", s, r[10], r[11]);
    field::body(b"  range proof: ", s, r[12], r[13]);
    fee(r);
}

pub(crate) fn outputs(count: u32, s: &[u8], outputs: &[u32]) {
    let (rows, _) = outputs.as_chunks::<14>();
    for (k, r) in (0..count).zip(rows) {
        output(k, s, r);
    }
}
