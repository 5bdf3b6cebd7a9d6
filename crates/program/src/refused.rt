use crate::flaw::Flaw;
use crate::tables::Tables;

// Tables that are no program, given back, and why.
#[derive(Drop)]
pub struct Refused {
    pub flaw: Flaw,
    pub tables: Tables,
}
