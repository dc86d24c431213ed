//! Drawings of all sizes.

use crate::random::Random;
use arrayvec::ArrayVec;
use drawing::node::Pair;
use drawing::refusal::Refusal;
use drawing::table::calls::MOST_NODES;
use fitter::job::Job;

/// A node as a literal, inverted now and then.
fn turned(random: &mut Random, node: u16) -> u16 {
    node.saturating_mul(2).saturating_add(random.below(2))
}

/// A literal of one of the last `near` nodes below node `v`.
fn literal(random: &mut Random, v: u16, near: u16) -> u16 {
    let back = random.below(near.min(v));
    turned(random, v.saturating_sub(1).saturating_sub(back))
}

/// Adds one to six outputs near the last node.
fn add_outputs(job: &mut Job, random: &mut Random, total: u16) -> Result<(), Refusal> {
    for _ in 0..1 + random.below(6) {
        let output = literal(random, total.saturating_add(1), 8);
        let _ = job.output(output)?;
    }
    Ok(())
}

/// How far back the gates of a drawing reach.
fn reach(random: &mut Random) -> u16 {
    match random.below(4) {
        0 => 4,
        1 => 8,
        2 => 20,
        _ => 255,
    }
}

/// A drawing whose gates take any nodes shortly before them: some inputs first, and one among the gates now and then.
fn woven(random: &mut Random) -> Result<Job, Refusal> {
    let mut job = Job::new();
    let total = 1 + random.below(255);
    let first = 1 + random.below(10);
    let near = reach(random);
    for v in 1..=total {
        if v <= first || random.below(24) == 0 {
            let _ = job.input()?;
        } else {
            let left = literal(random, v, near);
            let right = literal(random, v, near);
            let _ = job.gate(Pair { left, right })?;
        }
    }
    add_outputs(&mut job, random, total)?;
    Ok(job)
}

/// Nodes that no gate has taken, or that stay although one has.
#[derive(Drop)]
struct Pool {
    nodes: ArrayVec<u16, MOST_NODES>,
}

impl Pool {
    /// Puts a node behind the others. There is room for all nodes of a drawing.
    fn put(&mut self, node: u16) {
        let _ = self.nodes.try_push(node);
    }

    /// A literal of one of the nodes, if there is one; the node stays where `keep` says so.
    fn take(&mut self, random: &mut Random, keep: u16) -> Option<u16> {
        let count = u16::try_from(self.nodes.len()).ok()?;
        let place = random.below(count) as usize;
        let node = *self.nodes.get(place)?;
        if random.below(keep) != 1 {
            let _ = self.nodes.swap_remove(place);
        }
        Some(turned(random, node))
    }

    /// The fanins of a gate, if there are two nodes for them.
    fn take_pair(&mut self, random: &mut Random, keep: u16) -> Option<Pair> {
        if self.nodes.len() < 2 {
            return None;
        }
        let left = self.take(random, keep)?;
        let right = self.take(random, keep)?;
        Some(Pair { left, right })
    }
}

/// A drawing whose gates take mostly nodes that no other gate has: trees that share some nodes.
fn grown(random: &mut Random) -> Result<Job, Refusal> {
    let mut job = Job::new();
    let total = 1 + random.below(255);
    let first = 1 + random.below(90);
    let keep = 3 + random.below(30);
    let mut pool = Pool {
        nodes: ArrayVec::new(),
    };
    for v in 1..=total {
        let fanins = if v <= first {
            None
        } else {
            pool.take_pair(random, keep)
        };
        let _ = match fanins {
            Some(pair) => job.gate(pair)?,
            None => job.input()?,
        };
        pool.put(v);
    }
    add_outputs(&mut job, random, total)?;
    Ok(job)
}

/// A job with a drawing of up to 255 nodes above node 0.
pub fn draw(random: &mut Random) -> Result<Job, Refusal> {
    // two kinds of drawings by chance, which are made here alone: nothing would be joined by passing one of them in
    if random.below(2) == 0 {
        woven(random)
    } else {
        grown(random)
    }
}
