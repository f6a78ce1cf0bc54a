// Judging: the rules that a record must keep, and the faults in 01's order. A record is lent as its numbers.
ghost use Rattle.std.specs.Prelude.{◌≡◌, ◌&&◌, ◌+◌, ◌^◌, ◌<◌, eqb, IfOk};
ghost use Rattle.std.specs.List.{list_all};
ghost use Rattle.layout.specs.Transaction.{asset_prefix, nonce_prefix};
ghost use Rattle.layout.specs.Contents.{confused, all};
ghost use Rattle.layout.specs.Records.{sum};
ghost use Rattle.layout.specs.Writing.{lies, value_rule, value_width, issuance_rule, input_witness_rule, input_rule, token_rule, output_witness_rule, output_rule, item_rule, null_issuance, input_fault, input_faults, rule_faults, record_items, empty_input, empty_output, verdict};
ghost use Rattle.encoders.specs.Answers.{told, faulted};
ghost use Rattle.encoders.specs.Needs.{record_faults, broken};

use crate::table::{InputRow, ItemRow, OutputRow, Transaction};
use encode::{Refusal, RefusalKind};

// ---- 13: each rule is its definition. `flag` and `there` go by themselves, as the definitions take them: a struct would be opened in each clause.

// A position plus length stays in the source, of which so many bytes are there.
pub(crate) fn lies(there: usize, at: u32, n: u32) -> bool
    ensures { result ≡ lies there at n }
{
    at as usize + n as usize <= there
}

pub(crate) fn value_rule(prefix: u32, high: u32, low: u32) -> bool
    ensures { result ≡ value_rule prefix high low }
{
    (prefix == 1) | (((prefix == 0) | (prefix == 8) | (prefix == 9)) & (high == 0) & (low == 0))
}

// A value's 1, 9 or 33 bytes, whatever the prefix. `confidential`'s width is none where a prefix is not listed; 01's `value_width` is 33 there,
// and these three arms are its definition.
pub(crate) fn value_width(prefix: u32) -> usize
    ensures { result ≡ value_width prefix }
{
    match prefix {
        0 => 1,
        1 => 9,
        _ => 33,
    }
}

// A field that is not there has 0. Every number is looked at: `all`, which stops at the first that isn't 0, isn't unrolled.
pub(crate) fn zeros(numbers: &[u32]) -> bool
    ensures { result ≡ list_all (λ n. eqb n 0) numbers.now }
{
    numbers.iter().fold(true, |all, n| all & (*n == 0))
}

// In an issuance, keys stand after the amount's bytes.
pub(crate) fn issuance_lies(there: usize, at: u32, amount: u32, keys: u32) -> bool
    ensures { result ≡ lies there (at + 64 + value_width amount) (value_width keys) }
{
    at as usize + 64 + value_width(amount) + value_width(keys) <= there
}

// The whole field must lie in the source.
pub(crate) fn issuance_rule(there: usize, r: &InputRow) -> bool
    ensures { result ≡ issuance_rule there r.now }
{
    if 2 <= r[2] {
        return issuance_lies(there, r[6], r[7], r[10])
            & value_rule(r[7], r[8], r[9])
            & value_rule(r[10], r[11], r[12]);
    }
    zeros(&r[6..13])
}

// The first item's index is the sum of earlier items. With flag 0 all witness numbers are 0.
pub(crate) fn input_witness_rule(flag: u32, there: usize, first: usize, r: &InputRow) -> bool
    ensures { result ≡ input_witness_rule flag there first r.now }
{
    if flag == 1 {
        return lies(there, r[13], r[14]) & lies(there, r[15], r[16]) & (r[17] as usize == first);
    }
    zeros(&r[13..20])
}

pub(crate) fn input_rule(flag: u32, there: usize, first: usize, r: &InputRow) -> bool
    ensures { result ≡ input_rule flag there first r.now }
{
    lies(there, r[0], 32)
        & (r[2] <= 3)
        & lies(there, r[3], r[4])
        & issuance_rule(there, r)
        & input_witness_rule(flag, there, first, r)
}

// Positions of null fields and of an output's explicit value are not read. The two lists stand as 01's
// `token_rule` has them: `Confidential` knows widths, so one function over it would need a law from widths to lists for these two lines.
pub(crate) fn asset_rule(there: usize, at: u32, prefix: u32) -> bool
    ensures { result ≡ token_rule asset_prefix there at prefix }
{
    (prefix == 0) | (((prefix == 1) | (prefix == 10) | (prefix == 11)) & lies(there, at, 33))
}

pub(crate) fn nonce_rule(there: usize, at: u32, prefix: u32) -> bool
    ensures { result ≡ token_rule nonce_prefix there at prefix }
{
    (prefix == 0) | (((prefix == 1) | (prefix == 2) | (prefix == 3)) & lies(there, at, 33))
}

pub(crate) fn output_witness_rule(flag: u32, there: usize, r: &OutputRow) -> bool
    ensures { result ≡ output_witness_rule flag there r.now }
{
    if flag == 1 {
        return lies(there, r[10], r[11]) & lies(there, r[12], r[13]);
    }
    zeros(&r[10..14])
}

pub(crate) fn output_rule(flag: u32, there: usize, r: &OutputRow) -> bool
    ensures { result ≡ output_rule flag there r.now }
{
    asset_rule(there, r[1], r[0])
        & value_rule(r[2], r[4], r[5])
        & ((r[2] <= 1) | lies(there, r[3], 33))
        & nonce_rule(there, r[7], r[6])
        & lies(there, r[8], r[9])
        & output_witness_rule(flag, there, r)
}

pub(crate) fn item_rule(flag: u32, there: usize, r: &ItemRow) -> bool
    ensures { result ≡ item_rule flag there r.now }
{
    if flag == 1 {
        return lies(there, r[0], r[1]);
    }
    (r[0] == 0) & (r[1] == 0)
}

// ---- 12 and 6

// The outpoint can't be told apart.
pub(crate) fn confused(vout: u32, flags: u32) -> bool
    ensures { result ≡ confused vout flags }
{
    ((1_073_741_824 <= vout) & !(vout == 0xffff_ffff))
        | ((vout == 0xffff_ffff) & !(flags == 0))
        | ((vout == 1_073_741_823) & (flags == 3))
}

pub(crate) fn null_issuance(r: &InputRow) -> bool
    ensures { result ≡ null_issuance r.now }
{
    (2 <= r[2]) & (r[7] == 0) & (r[10] == 0)
}

// 13 before 12 before 6. A record that passes hands on its items.
pub(crate) fn input_fault(
    flag: u32,
    there: usize,
    first: usize,
    i: usize,
    r: &InputRow,
) -> Result<usize, Refusal>
    ensures told { told result ≡ verdict (input_fault flag there first i r.now) (record_items r.now) }
    ensures small { IfOk result (λ n. first < 2 ^ 34 → first + n < 2 ^ 34) }
{
    if !input_rule(flag, there, first, r) {
        return Err(RefusalKind::BadRecord.at(i));
    }
    if confused(r[1], r[2]) {
        return Err(RefusalKind::OutpointUnclear.at(i));
    }
    if null_issuance(r) {
        return Err(RefusalKind::NullIssuance.at(i));
    }
    Ok(r[18] as usize + r[19] as usize)
}

// ---- 8

pub(crate) fn empty_input(r: &InputRow) -> bool
    ensures { result ≡ empty_input r.now }
{
    (r[14] == 0) & (r[16] == 0) & (r[18] == 0) & (r[19] == 0)
}

pub(crate) fn empty_output(r: &OutputRow) -> bool
    ensures { result ≡ empty_output r.now }
{
    (r[11] == 0) & (r[13] == 0)
}

// ---- over all records: a chain for each kind, since a generic one would take the same closure, and a clause on what it answers

// Inputs that pass hand on the sum of their items. It stays below 2 ^ 34, since a first index is a u32.
pub(crate) fn input_faults(flag: u32, there: usize, inputs: &[InputRow]) -> Result<usize, Refusal>
    ensures { told result ≡ verdict (input_faults flag there 0 0 inputs.now) (sum record_items inputs.now) }
{
    let mut first = 0;
    for (i, r) in inputs.iter().enumerate() {
        first += input_fault(flag, there, first, i, r)?;
    }
    Ok(first)
}

// 13 at the first record that breaks its rule.
pub(crate) fn broken(place: Option<usize>) -> Result<(), Refusal>
    ensures { faulted result ≡ broken place }
{
    match place {
        Some(i) => Err(RefusalKind::BadRecord.at(i)),
        None => Ok(()),
    }
}

pub(crate) fn output_faults(flag: u32, there: usize, outputs: &[OutputRow]) -> Result<(), Refusal>
    ensures { faulted result ≡ rule_faults (output_rule flag there) 0 outputs.now }
{
    broken(outputs.iter().position(|r| !output_rule(flag, there, r)))
}

pub(crate) fn item_faults(flag: u32, there: usize, items: &[ItemRow]) -> Result<(), Refusal>
    ensures { faulted result ≡ rule_faults (item_rule flag there) 0 items.now }
{
    broken(items.iter().position(|r| !item_rule(flag, there, r)))
}

pub(crate) fn inputs_empty(inputs: &[InputRow]) -> bool
    ensures { result ≡ all empty_input inputs.now }
{
    inputs.iter().all(|r| empty_input(r))
}

pub(crate) fn outputs_empty(outputs: &[OutputRow]) -> bool
    ensures { result ≡ all empty_output outputs.now }
{
    outputs.iter().all(|r| empty_output(r))
}

// ---- 01's order

// Flag 1, all witnesses empty.
pub(crate) fn all_empty(flag: u32, inputs: &[InputRow], outputs: &[OutputRow]) -> bool
    ensures { result ≡ (eqb flag 1 && all empty_input inputs.now && all empty_output outputs.now) }
{
    flag == 1 && inputs_empty(inputs) && outputs_empty(outputs)
}

impl Transaction<'_> {
    // Everything but 10, the written length and the output: 7; inputs, outputs, items; 13 at the number of inputs if the items don't add up; 8.
    pub(crate) fn judge(&self, there: usize) -> Result<(), Refusal>
        ensures { faulted result ≡ record_faults self.now.head.flag self.now.inputs.now self.now.outputs.now self.now.items.now there }
    {
        let flag = self.head.flag;
        if 1 < flag {
            return Err(RefusalKind::BadFlag.at(4));
        }
        let sum = input_faults(flag, there, self.inputs)?;
        output_faults(flag, there, self.outputs)?;
        item_faults(flag, there, self.items)?;
        if sum != self.items.len() {
            return Err(RefusalKind::BadRecord.at(self.inputs.len()));
        }
        if all_empty(flag, self.inputs, self.outputs) {
            return Err(RefusalKind::EmptyWitnesses.at(4));
        }
        Ok(())
    }
}
