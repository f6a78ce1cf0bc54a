ghost use Rattle.std.proofs.Common.{lit≤};
ghost use Rattle.confidential.specs.Width.{asset_width};
ghost use Rattle.confidential.specs.Laws.{prefixed_by_prefix};

use crate::Confidential;

pub struct Asset;

impl Confidential for Asset {
    ghost EXPLICIT_LEN = { 32 };

    ghost CONF_PREFIX_1 = { 10 };

    ghost CONF_PREFIX_2 = { 11 };

    const EXPLICIT_LEN: usize = 32;

    const CONF_PREFIX_1: usize = 10;

    const CONF_PREFIX_2: usize = 11;

    ghost width = { asset_width };

    ghost law = { prefixed_by_prefix _ _ };

    ghost short = { lit≤ tt };
}
