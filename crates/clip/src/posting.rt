// At which level the clip handler is posted; the field picker is always posted at the lower one.
#[derive(Clone, Copy, PartialEq, Eq, Debug)]
pub enum Posting {
    // at the higher level, so that it runs before the picker
    Above,
    // the mistake: at the picker's own level, so that either may run first
    Level,
}
