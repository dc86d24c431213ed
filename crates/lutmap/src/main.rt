//! Reads a drawing from standard input, and prints its cell list or `refused N at P`.
#![tactic(auto)]

use arrayvec::ArrayVec;
use drawing::refusal::Refusal;
use flow::listing::{MOST_BYTES, MOST_LIST, cell_list, place};
use std::io;
use std::io::{Read, Write};
use std::process::ExitCode;

/// One byte more than a text may have: a longer text is refused by the first of them.
const MOST_READ: usize = MOST_BYTES + 1;

fn refuse(rt: &HostRuntime, refusal: Refusal) -> io::Result<ExitCode> {
    println!(rt; "refused {} at {}", refusal.number(), place(refusal))?;
    Ok(ExitCode::FAILURE)
}

fn main(rt: HostRuntime) -> io::Result<ExitCode> {
    let mut text: ArrayVec<u8, MOST_READ> = ArrayVec::new();
    let _ = io::copy(&mut rt.stdin().take(MOST_READ as u64), &mut text)?;
    let mut list = [0; MOST_LIST];
    match cell_list(text.as_slice(), &mut list) {
        Ok(length) => {
            rt.stdout().write_all(&list[..length])?;
            Ok(ExitCode::SUCCESS)
        }
        Err(refusal) => refuse(&rt, refusal),
    }
}
