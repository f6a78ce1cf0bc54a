ghost use Rattle.std.proofs.Common.{lit≤};
ghost use Rattle.confidential.specs.Width.{nonce_width};
ghost use Rattle.confidential.specs.Laws.{prefixed_by_prefix};

use crate::Confidential;

pub struct Nonce;

impl Confidential for Nonce {
    ghost EXPLICIT_LEN = { 32 };

    ghost CONF_PREFIX_1 = { 2 };

    ghost CONF_PREFIX_2 = { 3 };

    const EXPLICIT_LEN: usize = 32;

    const CONF_PREFIX_1: usize = 2;

    const CONF_PREFIX_2: usize = 3;

    ghost width = { nonce_width };

    ghost law = { prefixed_by_prefix _ _ };

    ghost short = { lit≤ tt };
}
