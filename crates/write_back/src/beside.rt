// What writing gives, held beside the bytes that stand there: a sink that compares where the writer's own stores. So no second buffer of
// 4,000,000 bytes is needed.
ghost use Rattle.std.specs.Prelude.{ℕ};
ghost use Rattle.write_back.specs.Held.{held};

use encoders::sink::Sink;

// The same so far, up to a place, or other from there on.
#[derive(Clone, Copy)]
pub struct Beside<'a> {
    pub source: &'a [u8],
    pub reached: Result<usize, usize>,
}

impl Sink for Beside<'_> {
    ghost step = { held };

    // One byte, beside the one that stands there.
    fn byte(&mut self, b: u8) {
        let Ok(at) = self.reached else {
            return;
        };
        if at < self.source.len() && self.source[at] == b {
            self.reached = Ok(at + 1);
            return;
        }
        self.reached = Err(at);
    }

    // In one piece, where all of it is the same.
    fn part(&mut self, bytes: &[u8]) {
        if let Ok(at) = self.reached {
            let end = at.saturating_add(bytes.len());
            if end <= self.source.len() {
                let here = &self.source[at..end];
                if *here == *bytes {
                    self.reached = Ok(end);
                    return;
                }
            }
        }
        for b in bytes {
            self.byte(*b);
        }
    }
}
