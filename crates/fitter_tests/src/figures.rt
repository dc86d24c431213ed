//! The worked figures of docs/FIGURES.md.

use crate::compare::{Mapped, cuts_of, made, one_cell, pair, takes};
use drawing::refusal::Refusal;
use family::Family;
use family::levels::Levels;
use family::pins::Pins;
use fitter::job::Job;
use std::test::Fail;

/// A drawing of so many inputs and one gate, and the leaves and the table of the cell that it maps to.
#[derive(Clone, Copy)]
struct OneGate {
    figure: u8,
    inputs: u8,
    gate: u8,
    fanins: (u16, u16),
    leaves: &'static [u8],
    table: u32,
}

const ONE_GATES: [OneGate; 4] = [
    OneGate {
        figure: 2,
        inputs: 1,
        gate: 2,
        fanins: (2, 2),
        leaves: &[1],
        table: 2,
    },
    OneGate {
        figure: 3,
        inputs: 1,
        gate: 2,
        fanins: (2, 3),
        leaves: &[1],
        table: 0,
    },
    OneGate {
        figure: 4,
        inputs: 0,
        gate: 1,
        fanins: (1, 1),
        leaves: &[],
        table: 1,
    },
    OneGate {
        figure: 5,
        inputs: 1,
        gate: 2,
        fanins: (0, 2),
        leaves: &[1],
        table: 0,
    },
];

impl OneGate {
    /// Whether the gate is mapped to that one cell, which arrives at level 1, and its only cut has these leaves.
    fn maps(&self) -> Result<bool, Refusal> {
        let mut job = made(self.inputs, &[self.fanins], &[2 * u16::from(self.gate)], 4)?;
        let mut mapped = Mapped::filled(9);
        let answer = mapped.map_levels(&mut job)?;
        Ok(
            answer == (1, 1)
                && one_cell(&mapped.cover, self.gate, self.leaves, self.table)
                && cuts_of(&job, self.gate) == Some(1)
                && takes(&job, self.gate, self.leaves)
                && mapped.arrivals[self.gate as usize] == 1
                && mapped.arrivals[0] == 0,
        )
    }
}

#[test]
fn drawings_of_one_gate(rt: HostRuntime) -> Result<(), Fail> {
    let mut none = made(2, &[(2, 4)], &[], 4)?;
    let mut mapped = Mapped::filled(9);
    assert_eq!(rt; mapped.map_levels(&mut none)?, (0, 0), "figure 1");
    assert!(rt; mapped.cover.cells().is_empty(), "figure 1");
    assert_eq!(rt; &mapped.arrivals[3..5], [0, 9].as_slice(), "figure 1");
    for case in &ONE_GATES {
        assert!(rt; case.maps()?, "figure {}", case.figure);
    }
    Ok(())
}

/// Figure 6: the earlier arrival decides before the number of leaves.
#[test]
fn the_earlier_arrival_decides(rt: HostRuntime) -> Result<(), Fail> {
    let mut job = made(2, &[(2, 4), (6, 6)], &[8], 4)?;
    let mut mapped = Mapped::filled(9);
    assert_eq!(rt; mapped.map_levels(&mut job)?, (1, 2));
    assert_eq!(rt; cuts_of(&job, 4), Some(2));
    assert!(rt; takes(&job, 4, &[3]) && takes(&job, 4, &[1, 2]));
    assert!(rt; one_cell(&mapped.cover, 4, &[1, 2], 8));
    assert_eq!(rt; &mapped.arrivals[3..6], [1, 1, 9].as_slice());
    Ok(())
}

/// Figure 7: a choice between two inputs.
#[test]
fn a_choice_between_two(rt: HostRuntime) -> Result<(), Fail> {
    let mut job = made(3, &[(2, 4), (3, 6), (9, 11)], &[13], 3)?;
    let mut levels = Mapped::filled(9);
    assert_eq!(rt; levels.map_levels(&mut job)?, (1, 3));
    assert!(rt; one_cell(&levels.cover, 6, &[1, 2, 3], 39));
    assert_eq!(rt; cuts_of(&job, 6), Some(4));
    assert!(rt; takes(&job, 6, &[4, 5]) && takes(&job, 6, &[1, 2, 5]));
    assert!(rt; takes(&job, 6, &[1, 3, 4]) && takes(&job, 6, &[1, 2, 3]));
    let mut pins = Mapped::filled((9, 9));
    assert_eq!(rt; pins.map(&mut job, &Pins::new(3)?)?, (1, 0));
    assert_eq!(rt; &pins.arrivals[3..5], [(0, 0), (1, 2)].as_slice());
    assert_eq!(rt; &pins.arrivals[6..8], [(1, 3), (9, 9)].as_slice());
    job.width(2)?;
    assert_eq!(rt; levels.map_levels(&mut job)?, (3, 3));
    assert_eq!(rt; levels.arrivals[6], 2);
    assert_eq!(rt; cuts_of(&job, 6), Some(1));
    assert!(rt; takes(&job, 6, &[4, 5]));
    Ok(())
}

/// Figures 8 and 9: three inputs, tied anew.
#[test]
fn tied_anew(rt: HostRuntime) -> Result<(), Fail> {
    let mut job = made(3, &[(2, 4), (8, 6)], &[11], 3)?;
    let mut mapped = Mapped::filled(9);
    assert_eq!(rt; mapped.map_levels(&mut job)?, (1, 2));
    assert!(rt; one_cell(&mapped.cover, 5, &[1, 2, 3], 128));
    job.retie(5, pair((9, 6)))?;
    assert!(rt; job.is_kept(4) && !job.is_kept(5));
    assert_eq!(rt; mapped.map_levels(&mut job)?, (1, 1));
    assert!(rt; one_cell(&mapped.cover, 5, &[1, 2, 3], 112));
    job.retie(4, pair((2, 5)))?;
    assert!(rt; !job.is_kept(4) && !job.is_kept(5));
    assert_eq!(rt; mapped.map_levels(&mut job)?, (1, 2));
    assert!(rt; one_cell(&mapped.cover, 5, &[1, 2, 3], 208));
    assert_eq!(rt; job.retie(5, pair((9, 6))), Ok(()));
    assert_eq!(rt; job.retie(5, pair((10, 6))), Err(Refusal::BadLiteral));
    Ok(())
}

/// Both gates of each step have both nodes of the step before as fanins.
fn ladder() -> Result<Job, Refusal> {
    let mut job = made(2, &[], &[], 4)?;
    for i in 1..34u16 {
        let left = 4 * i - 2;
        for right in [4 * i, 4 * i + 1] {
            let _ = job.gate(pair((left, right)))?;
        }
    }
    Ok(job)
}

/// Figure 10: as many cuts as a list holds, and one more.
#[test]
fn thirty_two_cuts_and_more(rt: HostRuntime) -> Result<(), Fail> {
    let mut job = ladder()?;
    let _ = job.output(130)?;
    let mut mapped = Mapped::filled(9);
    assert_eq!(rt; mapped.map_levels(&mut job)?, (1, 63));
    assert_eq!(rt; cuts_of(&job, 65), Some(32));
    assert!(rt; takes(&job, 65, &[1, 2]) && takes(&job, 65, &[63, 64]));
    // gates 3 and 4 are never both 1, so gate 5 is 0, and with it every gate above 6
    assert!(rt; one_cell(&mapped.cover, 65, &[1, 2], 0));
    assert_eq!(rt; &mapped.arrivals[65..67], [1, 0].as_slice());
    let _ = job.output(134)?;
    assert_eq!(rt; mapped.map_levels(&mut job), Err(Refusal::Crowded(67)));
    assert!(rt; one_cell(&mapped.cover, 65, &[1, 2], 0));
    assert_eq!(rt; &mapped.arrivals[65..67], [1, 0].as_slice());
    assert!(rt; job.is_kept(66) && !job.is_kept(67) && !job.is_kept(68));
    assert_eq!(rt; mapped.map_levels(&mut job), Err(Refusal::Crowded(67)));
    Ok(())
}

/// Figure 12: the widths that there are.
#[test]
fn widths(rt: HostRuntime) {
    let mut job = Job::new();
    assert_eq!(rt; job.present_width(), 4);
    for width in 0..=255u8 {
        let answer = job.width(width);
        if (2..=5).contains(&width) {
            assert_eq!(rt; answer, Ok(()));
            assert_eq!(rt; job.present_width(), width);
        } else {
            assert_eq!(rt; answer, Err(Refusal::BadWidth), "width {width}");
        }
    }
    assert_eq!(rt; job.present_width(), 5);
    assert!(rt; Levels::new(1).is_err() && Levels::new(6).is_err() && Pins::new(1).is_err());
}
