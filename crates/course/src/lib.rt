// The course of a plan in code: how long its stages last, and where each carrier is and is headed in each step, forth
// and back.
//
// For: the floor's calls, which steer and check carriers by it. Promises: each function answers what the motion
// that carries the plan out says (specs/Stages.antt ties the code's stages to that motion). No call allocates, and
// none that is public has a `requires`. Rests on: motion, whose theorem says that every such move is lawful.
#![tactic(auto)]

pub mod route;
mod run;
pub mod stage;
