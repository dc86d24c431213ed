//! The earliest level of each gate, by flows.
//!
//! A gate whose latest fanin has level p has itself level p or p + 1. It has p just where some cut of at most K leaves has
//! all its leaves below level p: where no more than K paths without a common node lead from the gate and the nodes of
//! level p below it down to the inputs. Such paths are found one by one, by augmenting a flow of which each node
//! carries at most one unit.

use crate::plain::Plain;
use arrayvec::ArrayVec;

/// A node seen from above or from below, or the top where all paths begin.
#[derive(Clone, Copy, Default, PartialEq, Eq)]
enum Spot {
    #[default]
    Top,
    In(u8),
    Out(u8),
}

/// From which spots a node was reached first, from above and from below.
#[derive(Clone, Copy)]
struct Reached {
    into: Option<Spot>,
    out_of: Option<Spot>,
}

/// A search for one more path: how each node was reached, and the spots in the order in which they were.
#[derive(Drop)]
struct Search {
    reached: [Reached; 256],
    queue: ArrayVec<Spot, 512>,
}

impl Search {
    /// All paths begin at these nodes.
    fn new(entries: &[bool; 256]) -> Search {
        let mut search = Search {
            reached: [Reached {
                into: None,
                out_of: None,
            }; 256],
            queue: ArrayVec::new(),
        };
        for (v, entry) in (0..=255u8).zip(entries) {
            if *entry {
                search.reach(Spot::In(v), Spot::Top);
            }
        }
        search
    }

    /// From which spot this one was reached first. Nothing leads to the top.
    fn origin(&self, spot: Spot) -> Option<Spot> {
        match spot {
            Spot::Top => None,
            Spot::In(v) => self.reached[v as usize].into,
            Spot::Out(v) => self.reached[v as usize].out_of,
        }
    }

    /// Notes that a spot is reached, unless it is the top or was reached before.
    fn reach(&mut self, spot: Spot, from: Spot) {
        if spot == Spot::Top || self.origin(spot).is_some() {
            return;
        }
        match spot {
            Spot::Top => {}
            Spot::In(v) => self.reached[v as usize].into = Some(from),
            Spot::Out(v) => self.reached[v as usize].out_of = Some(from),
        }
        // there is room: each of the 512 spots besides the top is queued at most once
        let _ = self.queue.try_push(spot);
    }
}

/// Paths without a common node: for each node on one, the spot before it, which is the top or a node above it.
#[derive(Drop)]
struct Flow {
    before: [Option<Spot>; 256],
}

impl Flow {
    fn new() -> Flow {
        Flow {
            before: [None; 256],
        }
    }

    /// Goes on from a spot. The answer is whether it is a free input, where a path ends.
    fn step(&self, drawing: &Plain, search: &mut Search, spot: Spot) -> bool {
        match spot {
            Spot::Top => {}
            Spot::In(v) => match self.before[v as usize] {
                Some(before) => search.reach(before, spot),
                None if drawing.is_input(v) => return true,
                None => search.reach(Spot::Out(v), spot),
            },
            Spot::Out(v) => {
                if let Some(fanins) = drawing.fanins(v) {
                    for fanin in fanins {
                        search.reach(Spot::In(fanin), spot);
                    }
                }
                if self.before[v as usize].is_some() {
                    search.reach(Spot::In(v), spot);
                }
            }
        }
        false
    }

    /// Turns the way that led to a spot into flow, from there back to the top.
    fn turn(&mut self, search: &Search, end: Spot) {
        let mut spot = end;
        // a way passes each of the 512 spots besides the top at most once
        for _ in 0..512u16 {
            let Some(from) = search.origin(spot) else {
                return;
            };
            if let Spot::In(v) = spot {
                self.before[v as usize] = (from != Spot::Out(v)).then_some(from);
            }
            spot = from;
        }
    }

    /// Adds a path, if there is one more.
    fn augment(&mut self, drawing: &Plain, mut search: Search) -> bool {
        for head in 0..512usize {
            let Some(spot) = search.queue.get(head).copied() else {
                return false;
            };
            if self.step(drawing, &mut search, spot) {
                self.turn(&search, spot);
                return true;
            }
        }
        false
    }
}

/// The levels of a drawing's needed gates, as far as they are worked out; 0 for all other nodes.
#[derive(Drop)]
struct Survey<'a> {
    drawing: Plain<'a>,
    width: u8,
    levels: [u16; 256],
}

impl Survey<'_> {
    /// The nodes below level p right under gate v and the nodes of level p below it. The constant is a dead end.
    fn entries(&self, v: u8, p: u16) -> [bool; 256] {
        let mut inside = [false; 256];
        let mut entries = [false; 256];
        inside[v as usize] = true;
        // by number, since lower nodes come inside on the way down
        for u in (0..=v).rev() {
            if inside[u as usize]
                && let Some(fanins) = self.drawing.fanins(u)
            {
                for fanin in fanins {
                    if self.levels[fanin as usize] == p {
                        inside[fanin as usize] = true;
                    } else {
                        entries[fanin as usize] = true;
                    }
                }
            }
        }
        entries
    }

    /// Whether gate v has a cut of at most `width` leaves with all leaves below level p.
    fn has_cut(&self, v: u8, p: u16) -> bool {
        let entries = self.entries(v, p);
        let mut flow = Flow::new();
        for _ in 0..=self.width {
            if !flow.augment(&self.drawing, Search::new(&entries)) {
                return true;
            }
        }
        false
    }

    /// The level of gate v, all below it being worked out.
    fn level(&self, v: u8) -> u16 {
        let Some(fanins) = self.drawing.fanins(v) else {
            return 0;
        };
        let [left, right] = fanins;
        let p = self.levels[left as usize].max(self.levels[right as usize]);
        if p > 0 && self.has_cut(v, p) {
            p
        } else {
            p.saturating_add(1)
        }
    }
}

/// The levels of the needed gates; 0 for all other nodes.
pub fn levels_of(drawing: Plain, needed: &[bool; 256], width: u8) -> [u16; 256] {
    let mut survey = Survey {
        drawing,
        width,
        levels: [0; 256],
    };
    // by number, since a level is worked out from those below it
    for (v, needed) in (0..=255u8).zip(needed) {
        if *needed {
            survey.levels[v as usize] = survey.level(v);
        }
    }
    survey.levels
}
