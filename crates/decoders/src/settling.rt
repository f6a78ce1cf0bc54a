// The state where a field's last byte is taken: within its range, so that no sum of what follows wraps. `advance` makes it, and each step hands
// back the plain state, which can't carry the fact: any numbers may be handed in, and 11 refuses them.
ghost use Rattle.decoders.specs.Machine.{Safe};

use crate::TransactionDecoder;

#[derive(Clone, Copy)]
pub(crate) struct Settling {
    pub(crate) decoder: TransactionDecoder,
    ghost safe: { Safe decoder },
}
