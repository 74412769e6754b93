// The lines of a script that are not steps: its first line, and that of a refusal. A line is written from a place of the
// caller's buffer on, or refused for want of room, and then nothing is written.
//
// For: the floor, whose steps are lines too, and the programs. Promises: specs/Lines.antt says which bytes each line is,
// specs/Pasting.antt what becomes of the buffer. No call allocates or requires anything: a line is made in a string of
// fixed room. Rests on: chain, for the refusals; arrayvec and itoa, for that string and its numbers.
#![tactic(auto)]

pub mod lines;
pub mod room;
