//! Handles one job by a script on standard input: a line a command, and an answer a line.
#![tactic(auto)]

mod answer;
mod console;
mod desk;
mod joined;
mod kept;
mod mapped;

use console::Console;
use desk::Desk;
use std::io;
use std::io::{BufReader, BufWriter};

/// Reads the script to its end, and answers each line before it reads the next.
fn run(rt: &HostRuntime) -> io::Result<()> {
    let script = BufReader::new(rt.alloc(), rt.stdin())?;
    let out = BufWriter::new(rt.alloc(), rt.stdout())?;
    let mut console = Console::new(script, out, rt.alloc());
    let mut desk = Desk::new();
    let mut line = Vec::new(rt.alloc());
    // input has no known end, and a loop needs one: no script has as many lines
    for _ in 0..u64::MAX {
        let Some(next) = console.next_line(line)? else {
            break;
        };
        desk.handle(next.as_slice(), &mut console)?;
        console.flush()?;
        line = next;
    }
    Ok(())
}

fn main(rt: HostRuntime) -> io::Result<()> {
    run(&rt)
}
