// What the floor's calls answer and leave, and what holds of every chain of them.
//
// For: the floor's calls, which are held to these relations. Promises: specs/ are the pages to read, in this order:
// Floors, Calls, Sheets, Chains, Promises; the theorem stands on the contract of the call that opens a floor. Rests
// on: grid, deck, rules, motion, matchings, planning.
#![tactic(auto)]

pub mod fault;
