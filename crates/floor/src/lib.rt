// The floor record and its calls: open a floor over a deck, order, step, back, look, and write the next step as a line.
//
// For: the programs, and the service that plays chains of calls. Promises: each call answers and leaves what the
// relation of its name in chain's specs/Calls.antt says, in every case, and `open` promises what holds of every chain
// of calls. No call requires anything; only `open` allocates. Rests on: grid, deck, rules, motion, course, plan, chain,
// script.
#![tactic(auto)]

pub mod record;
