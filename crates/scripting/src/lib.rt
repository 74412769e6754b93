// The script of an order record: from the bytes of the record to the bytes of the script, in every case.
//
// For: the programs, which only read and write. Promises: `Script::of_record` answers what ScriptOf of specs/Scripts.antt
// says, which fixes every byte, but that 47 may stand for an order's script; a refusal is a script too, and needs no memory.
// Rests on: orderfile, which reads the record; serve, which plays the calls that the writer chooses on a floor over a new
// roster; script and floor, which write lines; motion, which bounds their number; arrayvec, for the line that needs no memory.
#![tactic(auto)]

mod page;
mod refusal;
pub mod scripts;
mod writer;
