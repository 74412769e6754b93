// The order record: the bytes by which a bench sends an order.
//
// For: whoever takes or sends orders. Promises: reading and writing ask their questions in order and answer exactly
// what specs/Records.antt says, and each undoes the other. Rests on: grid (sides), rules.
#![tactic(auto)]

pub mod fault;
mod lists;
pub mod order;
pub mod read;
mod rule_name;
pub mod write;
