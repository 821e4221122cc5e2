// Bytes: little-endian numbers, slots, pairs, null bits, signed numbers, padding, copies and text.
#![tactic(auto)]

pub mod copies;
pub mod finds;
pub mod nulls;
pub mod nums;
pub mod pairs;
pub mod signed;
pub mod sizes;
pub mod slots;
pub mod texts;
