// Counts and lengths beside a stranger's. Each line of standard input has a value and the bytes that bitcoinlib writes for it, or '!' and
// bytes that are not in shortest form; compare/compactsize/make made them. A line that differs from what is read here is printed.
#![tactic(auto)]

mod line;

const STDIN_FILENO: i32 = 0;

const STDOUT_FILENO: i32 = 1;

// How many lines there were: with a value, not in shortest form, and among both those that differ.
#[derive(Clone, Copy, Default)]
struct Tally {
    values: usize,
    longer: usize,
    differences: usize,
}

// As `trial`'s and `command`'s `text` and `number`: this program needs nothing else of theirs.
fn text(s: &[u8]) {
    io::write_all(STDOUT_FILENO, s);
}

fn number(n: usize) {
    io::print_decimal(STDOUT_FILENO, n as u64);
}

impl Tally {
    // One line more.
    fn count(&mut self, s: &[u8]) {
        if line::is_longer(s) {
            self.longer = self.longer.wrapping_add(1);
        } else {
            self.values = self.values.wrapping_add(1);
        }
        if !line::agrees(s) {
            text(s);
            text(b"\n");
            self.differences = self.differences.wrapping_add(1);
        }
    }
}

// What stands behind the last line feed is a line too.
fn lines(s: &[u8]) -> Tally {
    let mut t = Tally::default();
    for one in s.split_inclusive(|b| *b == b'\n') {
        t.count(one.strip_suffix(b"\n").unwrap_or(one));
    }
    t
}

fn main() {
    let mut buffer = io::large_buffer();
    let n = io::read_full(STDIN_FILENO, &mut buffer);
    let t = lines(&buffer[..n]);
    number(t.values);
    text(b" values, ");
    number(t.longer);
    text(b" not shortest, ");
    number(t.differences);
    text(b" differences\n");
}
