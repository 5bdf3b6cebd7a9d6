ghost use Rattle.std.specs.Prelude.{◌≡◌, ℕ, ◌<◌, Bool, true, List, length};
ghost use Rattle.bounds.specs.Scans.{Test};

// What stands in front of a line: bytes that move with each step of the line behind, or drop the step.
pub trait Front {
    // says of kind and delay that the step is kept
    ghost passes: { Self → Test };

    // says that every step is
    ghost opens: { Self → Bool };

    // how many bytes there are, and what they are after a step
    ghost wide: { Self → ℕ };

    ghost after: { Self → ℕ → ℕ → List ℕ };

    // apart from `put`, since a scan writes nothing before it has its step
    fn keeps(&self, kind: u8, delay: u8) -> bool
        ensures { result ≡ passes self.now kind delay };

    fn keeps_all(&self) -> bool
        ensures { result ≡ opens self.now };

    // writes the bytes after a step that is kept
    fn put(&self, kind: u8, delay: u8, out: &mut [u8])
        requires kept { passes self.now kind delay ≡ true }
        requires room { length out.old ≡ wide self.now }
        ensures { out.new ≡ after self.now kind delay };

    // where every step is kept, each in range is
    ghost sound: { (s : Self) → opens s ≡ true → (k d : ℕ) → k < 32 → d < 256 → passes s k d ≡ true };
}
