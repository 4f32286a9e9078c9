// The record: seven-bit numbers, the table of its parts, save, restore.
#![tactic(auto)]

pub mod number;
pub mod restore;
pub mod save;
pub mod shape;
pub mod table;
