ghost use Rattle.program.specs.Table.{table};
ghost use Rattle.program.specs.Limits.{Sound};

use crate::tables::Tables;

// A program that keeps all limits: whoever has one need not check it again.
#[derive(Drop)]
pub struct Program {
    pub(crate) tables: Tables,
    ghost sound: { Sound (table tables) },
}
