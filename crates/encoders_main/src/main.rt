// The writer on document 01's loads and rules. Each line was worked out from document 01: the answer of `write`, as number, place and
// length; that of `written_length`; and what the output holds, every byte of which was marked before.
#![tactic(auto)]

mod cases;
mod load;
mod long;
mod show;

fn fee(name: &[u8], r: [u32; 14]) {
    trial::text(name);
    if encoders::is_fee(r) {
        trial::text(b"yes\n");
        return;
    }
    trial::text(b"no\n");
}

// The script's length alone decides, also in records that mean nothing.
fn fees() {
    let mut a = [0u32; 14];
    fee(b"fee, all 0: ", a);
    a[9] = 1;
    fee(b"fee, script length 1: ", a);
    a[9] = 4294967295;
    fee(b"fee, script length 4294967295: ", a);
    let mut b = [4294967295u32; 14];
    fee(b"fee, all 4294967295: ", b);
    b[9] = 0;
    fee(b"fee, all 4294967295, script length 0: ", b);
}

fn main() {
    cases::loads();
    cases::counts_and_outpoints();
    cases::prefixes();
    cases::zeros();
    cases::witnesses();
    cases::ends();
    cases::positions();
    cases::rest();
    long::many();
    long::lengths();
    long::sources();
    long::limit();
    fees();
}
