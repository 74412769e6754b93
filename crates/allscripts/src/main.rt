// Reads order records one after another from standard input, each after its length in two bytes, high byte first, and
// writes the script of each, one after another. A length that is cut off after its first byte is no record, and ends the
// input; where a length runs past the end of the input, the record is what is left of it. A record of length 0 is refused
// like any other that is too short.
#![tactic(auto)]

ghost use Rattle.std.specs.Prelude.{◌<◌, length, MatchOption};
ghost use Rattle.allscripts.specs.Framing.{FirstRecord};

use scripting::scripts::Script;
use std::io;
use std::io::{Read, Write};

// The first record and what comes after it; none where a length is cut off.
fn split_record(input: &[u8]) -> Option<(&[u8], &[u8])>
    ensures { MatchOption result (length input.now < 2) (λ p. FirstRecord input.now p.0.now p.1.now) }
{
    let (told, after) = input.split_first_chunk()?;
    let told = usize::from(u16::from_be_bytes(*told));
    Some(after.split_at(told.min(after.len())))
}

// A script for each record.
fn write_scripts(rt: &HostRuntime, input: &[u8]) -> io::Result<()> {
    let mut rest = input;
    while let Some((bytes, after)) = split_record(rest) {
        let script = Script::of_record(rt.alloc(), bytes);
        rt.stdout().write_all(script.bytes())?;
        rest = after;
    }
    Ok(())
}

fn main(rt: HostRuntime) -> io::Result<()> {
    let mut input = Vec::new(rt.alloc());
    rt.stdin().read_to_end(&mut input)?;
    write_scripts(&rt, &input)
}
