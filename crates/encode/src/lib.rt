// Counts and lengths: port of src/encode.rs.
#![tactic(auto)]

mod little;
mod refusal;

ghost use Rattle.std.specs.Prelude.{◌≡◌, leb};
ghost use Rattle.layout.specs.Transaction.{announced, least};
ghost use Rattle.encode.specs.Count.{answer_of, counted};

pub use refusal::{Refusal, RefusalKind, UnlistedNumber};

// How many bytes stand behind a first byte above 252.
pub fn announced(first: usize) -> usize
    ensures { result ≡ announced first }
{
    match first {
        253 => 2,
        254 => 4,
        _ => 8,
    }
}

// The shortest form is required: so many bytes hold what fewer could not.
pub fn is_shortest(bytes: usize, n: usize) -> bool
    ensures { result ≡ leb (least bytes) n }
{
    match bytes {
        2 => 253 <= n,
        4 => 65536 <= n,
        _ => 4294967296 <= n,
    }
}

// Reads one count or length from the first byte on; what stands behind it is not looked at. Refused: cut, 1 at the
// slice's length; not in shortest form, 3 at 0.
pub fn read_count(s: &[u8]) -> Result<usize, Refusal>
    ensures { answer_of result ≡ counted s.now }
{
    let Some((first, behind)) = s.split_first() else {
        return Err(RefusalKind::EndsEarly.at(0));
    };
    let first = usize::from(*first);
    if first <= 252 {
        return Ok(first);
    }
    let bytes = announced(first);
    if s.len() <= bytes {
        return Err(RefusalKind::EndsEarly.at(s.len()));
    }
    let n = little::value(&behind[..bytes]);
    if is_shortest(bytes, n) {
        Ok(n)
    } else {
        Err(RefusalKind::NotShortest.at(0))
    }
}
