// States and answers as arrays of numbers, and back. The order is that of the structs' fields.
ghost use Rattle.std.specs.Prelude.{◌≡◌};
ghost use Rattle.std.proofs.Math.Option.{some};
ghost use Rattle.takzulit.specs.Numbers.{packed_state, unpacked_state, answer_numbers, head_list, head_of};
ghost use Rattle.decoders.specs.Feeding.{told_number, told_place, told_head};
ghost use Rattle.encoders.specs.Answers as writer;

use decoders::{Answer, Counts, Field, Head, Sizes, Spot, TransactionDecoder};
use encode::Refusal;

// A number, since C has it so (TAKZULIT_MORE): more wanted is a case by itself, and no number of document 01's.
pub const MORE: usize = 255;

// A reading state as C keeps it.
#[derive(Clone, Copy)]
pub struct StateNumbers(pub [usize; 20]);

// Head numbers as C keeps them.
#[derive(Clone, Copy)]
pub struct HeadNumbers(pub [u32; 7]);

impl From<TransactionDecoder> for StateNumbers {
    ghost from_gives = { λ decoder numbers. numbers.0 ≡ packed_state decoder };

    fn from(decoder: TransactionDecoder) -> StateNumbers {
        let TransactionDecoder {
            field,
            taken,
            sizes,
            counts,
            spot,
        } = decoder;
        StateNumbers([
            field.stage,
            field.form,
            field.width,
            field.have,
            field.value,
            taken,
            sizes.inputs,
            sizes.outputs,
            sizes.items,
            counts.version,
            counts.flag,
            counts.inputs,
            counts.outputs,
            counts.items,
            counts.locktime,
            spot.index,
            spot.left,
            spot.issuance,
            spot.null,
            spot.empty,
        ])
    }
}

impl From<StateNumbers> for TransactionDecoder {
    ghost from_gives = { λ numbers decoder. decoder ≡ unpacked_state numbers.0 };

    fn from(numbers: StateNumbers) -> TransactionDecoder {
        let n = numbers.0;
        TransactionDecoder {
            field: Field {
                stage: n[0],
                form: n[1],
                width: n[2],
                have: n[3],
                value: n[4],
            },
            taken: n[5],
            sizes: Sizes {
                inputs: n[6],
                outputs: n[7],
                items: n[8],
            },
            counts: Counts {
                version: n[9],
                flag: n[10],
                inputs: n[11],
                outputs: n[12],
                items: n[13],
                locktime: n[14],
            },
            spot: Spot {
                index: n[15],
                left: n[16],
                issuance: n[17],
                null: n[18],
                empty: n[19],
            },
        }
    }
}

impl From<HeadNumbers> for Head {
    ghost from_gives = { λ numbers head. writer.head_numbers head ≡ head_of numbers.0 };

    fn from(numbers: HeadNumbers) -> Head {
        let [version, flag, inputs, outputs, items, locktime, bytes] = numbers.0;
        Head {
            version,
            flag,
            inputs,
            outputs,
            items,
            locktime,
            bytes,
        }
    }
}

// Number, place, and the bytes taken. This, `head` and `written` are arrays as C lends them.
pub fn answer(told: Answer, taken: usize) -> [usize; 3]
    ensures { result ≡ answer_numbers (told_number told) (told_place told) taken }
{
    match told {
        Answer::Finished(_) => [0, 0, taken],
        Answer::More => [MORE, 0, taken],
        Answer::Refused(refusal) => [refusal.kind.number(), refusal.place, taken],
    }
}

// The head numbers that show.
pub fn head(told: Answer) -> [u32; 7]
    ensures { result ≡ head_list (told_head told) }
{
    match told {
        Answer::Finished(h) => [
            h.version, h.flag, h.inputs, h.outputs, h.items, h.locktime, h.bytes,
        ],
        Answer::More | Answer::Refused(_) => [0; 7],
    }
}

// Number, place, and the written length.
pub fn written(told: Result<usize, Refusal>) -> [usize; 3]
    ensures { result ≡ answer_numbers (some (writer.told_number told)) (writer.told_place told) (writer.told_length told) }
{
    match told {
        Ok(n) => [0, 0, n],
        Err(refusal) => [refusal.kind.number(), refusal.place, 0],
    }
}
