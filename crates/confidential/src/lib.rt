// Assets, values and nonces: how wide each field is behind its prefix. Port of src/confidential/{value, asset, nonce}.rs.
#![tactic(auto)]

mod asset;
mod nonce;
mod value;

ghost use Rattle.std.specs.Prelude.{◌≡◌, ◌≤◌, ℕ};
ghost use Rattle.confidential.specs.Width.{by_prefix, listed};

pub use asset::Asset;
pub use nonce::Nonce;
pub use value::Value;

const CONFIDENTIAL_LEN: usize = 33;

// A field that is null, explicit or a commitment, as its prefix says: 0, 1, or one of two of its own.
pub trait Confidential {
    ghost EXPLICIT_LEN: { ℕ };

    ghost CONF_PREFIX_1: { ℕ };

    ghost CONF_PREFIX_2: { ℕ };

    const EXPLICIT_LEN: usize;

    const CONF_PREFIX_1: usize;

    const CONF_PREFIX_2: usize;

    // The layout's width of the whole field; 0 where the prefix is not listed.
    ghost width: { ℕ → ℕ };

    // What each `impl` must prove.
    ghost law: { (prefix : ℕ) → width prefix ≡ by_prefix EXPLICIT_LEN CONF_PREFIX_1 CONF_PREFIX_2 prefix };

    ghost short: { EXPLICIT_LEN ≤ 32 };
}

// The bytes of a field, its prefix included; none where the prefix is not listed.
pub fn width<K: Confidential>(prefix: usize) -> Option<usize>
    ensures { result ≡ listed (K.width prefix) }
{
    match prefix {
        0 => Some(1),
        1 => Some(1 + K::EXPLICIT_LEN),
        p if p == K::CONF_PREFIX_1 || p == K::CONF_PREFIX_2 => Some(CONFIDENTIAL_LEN),
        _ => None,
    }
}
