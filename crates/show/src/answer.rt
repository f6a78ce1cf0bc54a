// The first line, and the head numbers.
use crate::field;
use command::text;
use decoders::{Head, Refusal, RefusalKind};

// What 01's table says of a refusal by the strict form. It is no Display of RefusalKind: the room is this program's own.
fn words(kind: RefusalKind) -> &'static [u8] {
    match kind {
        RefusalKind::EndsEarly => b"more is wanted",
        RefusalKind::LimitPassed => b"a fixed field or body would end past 4,000,000",
        RefusalKind::NotShortest => b"count or length not in shortest form",
        RefusalKind::NoRecordLeft => {
            b"count exceeds the records left in its table; here is room for 1024 inputs, 1024 outputs, 8192 items"
        }
        RefusalKind::BadPrefix => b"prefix not listed",
        RefusalKind::NullIssuance => b"issuance flag, null issuance",
        RefusalKind::BadFlag => b"witness flag above 1",
        RefusalKind::EmptyWitnesses => b"flag 1, all witnesses empty",
        RefusalKind::BytesFollow => b"bytes follow",
        _ => b"not a number of the strict form",
    }
}

pub(crate) fn refused(refusal: Refusal) {
    command::refused(refusal);
    text(b": ");
    text(words(refusal.kind));
    text(b"\n");
}

pub(crate) fn finished(head: Head) {
    text(b"finished\n");
    field::number(b"version: ", head.version);
    field::number(b"flag: ", head.flag);
    field::number(b"inputs: ", head.inputs);
    field::number(b"outputs: ", head.outputs);
    field::number(b"items: ", head.items);
    field::number(b"locktime: ", head.locktime);
    field::number(b"length: ", head.bytes);
}
