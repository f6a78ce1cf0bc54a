// One line: what is told of some bytes, and the bytes.
ghost use Rattle.std.specs.Prelude.{◌<◌, ◌≤◌, ⊤, MatchOption};

use encode::RefusalKind;

// The value of a hexadecimal digit, in small letters: `to_digit` of a char takes capitals too.
fn half(b: u8) -> Option<u8>
    ensures { MatchOption result ⊤ (λ n. n < 16) }
{
    match b {
        b'0'..=b'9' => Some(b - b'0'),
        b'a'..=b'f' => Some(b - b'a' + 10),
        _ => None,
    }
}

// The byte that two digits tell.
fn byte(high: u8, low: u8) -> Option<u8> {
    Some(16 * half(high)? + half(low)?)
}

// Puts the bytes that the digits tell at the start, and says how many they are: none where anything but digits is there, a half byte, or
// more than 9. An array with room for one byte more: the byte behind the last is read too.
fn spelt(digits: &[u8], out: &mut [u8; 10]) -> Option<usize>
    ensures { MatchOption result ⊤ (λ n. n ≤ 9) }
{
    let (pairs, rest) = digits.as_chunks::<2>();
    if 9 < pairs.len() || !rest.is_empty() {
        return None;
    }
    for (cell, [high, low]) in out.iter_mut().zip(pairs) {
        *cell = byte(*high, *low)?;
    }
    Some(pairs.len())
}

pub(crate) fn is_longer(s: &[u8]) -> bool {
    s.first() == Some(&b'!')
}

// Whether s reads as the value with these digits.
fn is_value(s: &[u8], digits: &[u8]) -> bool {
    match encode::read_count(s) {
        Ok(n) => {
            let mut t = [0u8; 20];
            let k = io::decimal(n as u64, &mut t);
            &t[..k] == digits
        }
        Err(_) => false,
    }
}

// Whether s reads as told: as the value, or as 3 at 0.
fn reads(s: &[u8], told: &[u8]) -> bool {
    if is_longer(told) {
        return told.len() == 1 && encode::read_count(s) == Err(RefusalKind::NotShortest.at(0));
    }
    is_value(s, told)
}

// Whether each shorter part is cut: 1 at its length.
fn is_cut(s: &[u8]) -> bool {
    (0..s.len()).all(|k| encode::read_count(&s[..k]) == Err(RefusalKind::EndsEarly.at(k)))
}

// Whether the bytes read as told, also with one byte more behind them, and each shorter part is cut. So they are all taken, and no more.
fn takes(told: &[u8], digits: &[u8], behind: u8) -> bool {
    let mut bytes = [behind; 10];
    let Some(n) = spelt(digits, &mut bytes) else {
        return false;
    };
    let s = &bytes[..n];
    reads(s, told) && is_cut(s) && reads(&bytes[..n + 1], told)
}

// Whether the line says what is read here.
pub(crate) fn agrees(s: &[u8]) -> bool {
    let Some(at) = s.iter().position(|b| *b == b' ') else {
        return false;
    };
    let told = &s[..at];
    let digits = &s[at + 1..];
    takes(told, digits, 0) && takes(told, digits, 255)
}
