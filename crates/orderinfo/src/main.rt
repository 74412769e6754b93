// Shows what order records ask for: of each file that is named, `-` being standard input, and of standard input where
// none is named. A record that is refused is the line "refused" with the refusal's number.
#![tactic(auto)]

use orderfile::read::read;
use orderwords::order_words;
use std::io::Read;
use std::{env, fs, io};

fn show(rt: &HostRuntime, bytes: &[u8]) -> io::Result<()> {
    match read(rt.alloc(), bytes) {
        Ok(order) => {
            let text = order_words(rt.alloc(), &order)?;
            rt.print(text.as_str())
        }
        Err(fault) => println!(rt; "refused {}", fault.number()),
    }
}

fn show_input(rt: &HostRuntime) -> io::Result<()> {
    let mut bytes = Vec::new(rt.alloc());
    rt.stdin().read_to_end(&mut bytes)?;
    show(rt, &bytes)
}

fn main(rt: HostRuntime) -> io::Result<()> {
    let mut names = env::args(&rt)?.skip(1).peekable();
    if names.peek().is_none() {
        return show_input(&rt);
    }
    for name in names {
        if name.as_str() == "-" {
            show_input(&rt)?;
        } else {
            let bytes = fs::read(&rt, name.as_str())?;
            show(&rt, &bytes)?;
        }
    }
    Ok(())
}
