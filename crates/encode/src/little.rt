// Little-endian numbers.
ghost use Rattle.std.specs.Prelude.{◌≤◌, ◌≡◌, length};
ghost use Rattle.layout.specs.Number.{value, little};

pub(crate) fn value(bytes: &[u8]) -> usize
    requires { length bytes.now ≤ 8 }
    ensures { result ≡ value little bytes.now }
{
    let mut n = 0;
    for i in (0..bytes.len()).rev() {
        n = 256 * n + usize::from(bytes[i]);
    }
    n
}
