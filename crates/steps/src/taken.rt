use configuration::configuration::Configuration;
use program::kind::Kind;

// A step that is taken: its kind, and the configuration that it leads to.
#[derive(Clone, Copy)]
pub(crate) struct Taken {
    pub(crate) kind: Kind,
    pub(crate) after: Configuration,
}
