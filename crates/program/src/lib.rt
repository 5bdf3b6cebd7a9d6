#![tactic(auto)]

// Programs of prioritized tasks as tables: places with their statements, expressions, procedures, start and goal.
mod edits;
mod entries;
pub mod evaluate;
pub mod expression;
pub mod flaw;
mod flaws;
mod join;
pub mod kind;
pub mod limits;
mod linked;
mod new;
pub mod no_place;
pub mod no_room;
pub mod node;
pub mod operator;
pub mod program;
mod push;
mod reads;
pub mod refused;
mod reserve;
mod shallow;
mod sizes;
pub mod statement;
pub mod tables;
mod tells;
pub mod variable;
