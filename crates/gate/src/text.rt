// The line as text.
ghost use Rattle.std.specs.Prelude.{◌≡◌, ◌∷◌, [], ◌++◌, ◌+◌, ◌≤◌};
ghost use Rattle.arrayvec.specs.ArrayVec.{array_vec_len};
ghost use Rattle.gate.specs.Text.{decimal, line_bytes};

use crate::Line;
use arrayvec::ArrayVec;

// Five numbers of 20 digits at most, and a byte behind each.
pub type Text = ArrayVec<u8, 105>;

// The digits of a number, and one byte behind them: 21 bytes at most.
fn put_number(text: &mut Text, n: u64, behind: u8)
    requires { array_vec_len text.old + 21 ≤ 105 }
    ensures bytes { text.new.items ≡ text.old.items ++ (decimal n ++ behind ∷ []) }
    ensures room { array_vec_len text.new ≤ array_vec_len text.old + 21 }
{
    let mut digits = [0u8; 20];
    let count = io::decimal(n, &mut digits);
    text.try_extend_from_slice(&digits[..count]).unwrap();
    text.push(behind);
}

pub(crate) fn put_line(line: Line) -> Text
    ensures { result.items ≡ line_bytes line }
{
    let mut text = Text::new();
    put_number(&mut text, line.number as u64, b' ');
    put_number(&mut text, line.place as u64, b' ');
    put_number(&mut text, u64::from(line.inputs), b' ');
    put_number(&mut text, u64::from(line.outputs), b' ');
    put_number(&mut text, u64::from(line.items), b'\n');
    text
}
