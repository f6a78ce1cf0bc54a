// The stages: what is read now, in the layout's order; then the two ends. Numbers and no enum, as all of the state (and its 0 or 1 of
// `issuance`, `null` and `empty`): it crosses the C interface as 20 numbers, and any caller can forge it.
pub(crate) const VERSION: usize = 0;

pub(crate) const FLAG: usize = 1;

pub(crate) const INPUT_COUNT: usize = 2;

pub(crate) const TXID: usize = 3;

pub(crate) const VOUT: usize = 4;

pub(crate) const INPUT_SCRIPT: usize = 5;

pub(crate) const SEQUENCE: usize = 6;

pub(crate) const BLINDING_NONCE: usize = 7;

pub(crate) const ENTROPY: usize = 8;

pub(crate) const ISSUANCE_AMOUNT: usize = 9;

pub(crate) const INFLATION_KEYS: usize = 10;

pub(crate) const OUTPUT_COUNT: usize = 11;

pub(crate) const ASSET: usize = 12;

pub(crate) const VALUE: usize = 13;

pub(crate) const NONCE: usize = 14;

pub(crate) const OUTPUT_SCRIPT: usize = 15;

pub(crate) const LOCKTIME: usize = 16;

pub(crate) const AMOUNT_PROOF: usize = 17;

pub(crate) const KEYS_PROOF: usize = 18;

pub(crate) const SCRIPT_COUNT: usize = 19;

pub(crate) const SCRIPT_ITEM: usize = 20;

pub(crate) const PEGIN_COUNT: usize = 21;

pub(crate) const PEGIN_ITEM: usize = 22;

pub(crate) const SURJECTION_PROOF: usize = 23;

pub(crate) const RANGE_PROOF: usize = 24;

pub(crate) const FINISHED: usize = 25;

pub(crate) const REFUSED: usize = 26;

// The forms of a field: a count's or length's further bytes and its first byte, bytes that are never looked at, numbers little-endian and big-endian.
pub(crate) const FURTHER: usize = 0;

pub(crate) const FIRST: usize = 1;

pub(crate) const OPAQUE: usize = 2;

pub(crate) const LITTLE: usize = 3;

pub(crate) const BIG: usize = 4;
