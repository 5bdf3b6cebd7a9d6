ghost use Rattle.std.specs.Prelude.{◌≡◌, ◌&&◌, ◌==◌, nat_le};

// Whether a line or an area of that length serves a machine of that width.
pub fn serves(width: u16, length: usize) -> bool
    ensures { result ≡ (nat_le width 256 && length == width) }
{
    width <= 256 && length == usize::from(width)
}
