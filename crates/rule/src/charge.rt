ghost use Rattle.std.specs.Prelude.{◌≡◌};
ghost use Rattle.rule.specs.Bounds.{has, charged, largest};

// A set of kinds, one bit to a kind.
#[derive(Clone, Copy)]
pub struct KindSet {
    mask: u32,
}

impl KindSet {
    pub fn new(mask: u32) -> KindSet
        ensures { result.mask ≡ mask }
    {
        KindSet { mask }
    }

    pub fn has(self, kind: u8) -> bool
        ensures { result ≡ has self kind }
    {
        kind < 32 && (self.mask >> kind) % 2 == 1
    }
}

// What a bound charges for a step.
#[derive(Clone, Copy)]
pub enum Charge {
    // 1 for each step of these kinds
    Kinds(KindSet),
    // the step's delay
    Delay,
}

impl Charge {
    pub fn of(self, kind: u8, delay: u8) -> u8
        ensures { result ≡ charged self kind delay }
    {
        match self {
            Charge::Kinds(set) => u8::from(set.has(kind)),
            Charge::Delay => delay,
        }
    }

    pub fn largest(self) -> u8
        ensures { result ≡ largest self }
    {
        match self {
            Charge::Kinds(_) => 1,
            Charge::Delay => u8::MAX,
        }
    }
}
