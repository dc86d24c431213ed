//! Holds map to another way to the same levels, and evaluate to plain simulation, on drawings of all sizes.
#![tactic(auto)]

mod draw;
mod flow;
mod plain;
mod random;
mod tally;

use draw::draw;
use random::Random;
use std::io;
use tally::Tally;

const DRAWINGS: u32 = 200;

fn main(rt: HostRuntime) -> io::Result<()> {
    let mut random = Random::new(1);
    let mut all = [2, 3, 4, 5].map(Tally::new);
    for _ in 0..DRAWINGS {
        match draw(&mut random) {
            Ok(mut job) => {
                for tally in &mut all {
                    tally.compare(&mut job, &mut random);
                }
            }
            Err(_) => println!(rt; "a drawing was refused")?,
        }
    }
    println!(rt; "{DRAWINGS} drawings")?;
    for tally in &all {
        rt.println(tally)?;
    }
    Ok(())
}
