// What takes a transaction's bytes, one after another. The writer stores them into the output; another sink can hold them beside the source.
ghost use Rattle.std.specs.Prelude.{ℕ, ◌∷◌, []};
ghost use Rattle.encoders.specs.Sinks.{Took};

pub trait Sink {
    // what one byte more makes of it
    ghost step: { Self → ℕ → Self };

    fn byte(&mut self, b: u8)
        ensures { Took step (b ∷ []) self.old self.new };

    fn part(&mut self, bytes: &[u8])
        ensures { Took step bytes.now self.old self.new }
    {
        for b in bytes {
            self.byte(*b);
        }
    }
}
