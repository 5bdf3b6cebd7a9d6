use crate::choice::Choice;
use crate::label::Label;
use fixed::fixed_vec::FixedVec;
use program::kind::Kind;

// Up to 16 labels, in the order of the steps.
pub(crate) type Labels = FixedVec<Label, 16>;

// What unused room holds.
pub(crate) const UNUSED: Label = Label {
    kind: Kind::Skip,
    choice: Choice::Plain,
    fits: false,
};
