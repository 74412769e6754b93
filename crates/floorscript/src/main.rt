// Reads one order record from standard input and writes its script: the line "LFS 1 h w L", and then a line of letters for
// each step. What is refused is the line "refused" with its number; the program ends with status 0 then, too.
#![tactic(auto)]

use scripting::scripts::Script;
use std::io;
use std::io::{Read, Write};

fn main(rt: HostRuntime) -> io::Result<()> {
    let mut bytes = Vec::new(rt.alloc());
    rt.stdin().read_to_end(&mut bytes)?;
    let script = Script::of_record(rt.alloc(), &bytes);
    rt.stdout().write_all(script.bytes())
}
