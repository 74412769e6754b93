// Plays a chain of calls from standard input, one a line, and prints each as `call => answer`, so that two floors can be
// compared call by call. docs/calls.md has the calls.
#![tactic(auto)]

mod any_deck;
mod play;
mod refusal;
mod words;

use play::Play;
use refusal::Refusal;
use std::io;

fn main(rt: HostRuntime) -> io::Result<()> {
    let heap = rt.alloc();
    let mut play = Play::new(heap);
    for line in rt.lines(heap) {
        let line = line?;
        match play.answer(line.as_str()) {
            Ok(text) => println!(rt; "{line} => {text}")?,
            Err(Refusal::Unanswered(error)) => return Err(error.into()),
            Err(refusal) => println!(rt; "{line} => {refusal}")?,
        }
    }
    Ok(())
}
