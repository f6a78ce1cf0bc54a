ghost use Rattle.std.specs.Prelude.{refl};
ghost use Rattle.std.proofs.Common.{lit≤};
ghost use Rattle.confidential.specs.Width.{value_width};

use crate::Confidential;

pub struct Value;

impl Confidential for Value {
    ghost EXPLICIT_LEN = { 8 };

    ghost CONF_PREFIX_1 = { 8 };

    ghost CONF_PREFIX_2 = { 9 };

    const EXPLICIT_LEN: usize = 8;

    const CONF_PREFIX_1: usize = 8;

    const CONF_PREFIX_2: usize = 9;

    ghost width = { value_width };

    ghost law = { λ prefix. refl };

    ghost short = { lit≤ tt };
}
