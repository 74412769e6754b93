// Trials: worked cases, proved of the definitions, and tests of the same cases that run on every deck.
//
// For: whoever doubts the definitions. Promises: trials_hold, the one list of proved trials. Rests on: the
// crates with the definitions, decks, and scripting.
#![tactic(auto)]

ghost use Rattle.trials.specs.Trials.{Trials};

#[cfg(test)]
mod decks;

// The list of proved trials is in specs/Trials.antt.
pub fn trials_hold()
    ensures { Trials }
{}
