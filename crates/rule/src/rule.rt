ghost use Rattle.std.specs.Prelude.{◌≡◌, ℕ, Bool};
ghost use Rattle.rule.specs.Layers.{Moves, Sound};

// The rule of a layer: at each step below it moves the layer's byte, or drops the step.
pub trait Rule {
    // the next byte, from byte, kind and delay
    ghost moves: { Self → Moves };

    // the byte at the start
    ghost opening: { Self → ℕ };

    // says of a byte that no step is dropped there
    ghost covers: { Self → ℕ → Bool };

    // bytes stay bytes, and what is covered is kept; held as a value, since the proof that a layer is a lawful
    // machine names it
    ghost sound: { (r : Self) → Sound (moves r) (opening r) (covers r) };

    fn first(&self) -> u8
        ensures { result ≡ opening self.now };

    // from kind and delay, the two that a step tells
    fn next(&self, byte: u8, kind: u8, delay: u8) -> Option<u8>
        ensures { result ≡ moves self.now byte kind delay };

    fn keeps_all(&self, byte: u8) -> bool
        ensures { result ≡ covers self.now byte };
}
