//! Histories of calls: what a job answers depends on its drawing and its width, not on how it came to them.

ghost use Rattle.std.specs.Iterator.{IsFinite};

use crate::compare::{Mapped, made, pair, same_kept};
use aiger::write;
use drawing::refusal::Refusal;
use family::Family;
use family_tests::ranks::{Rank, Ranks};
use fitter::job::Job;
use std::test::Fail;

/// The gates 5 to 12 of a drawing with four inputs.
const FIRST: [(u16, u16); 8] = [
    (2, 4),
    (6, 8),
    (10, 13),
    (3, 11),
    (15, 17),
    (19, 12),
    (21, 16),
    (23, 20),
];

/// Gates with the same numbers and other fanins.
const SECOND: [(u16, u16); 8] = [
    (3, 6),
    (11, 4),
    (8, 10),
    (12, 15),
    (14, 9),
    (17, 18),
    (20, 5),
    (22, 19),
];

/// A job just made, with four inputs, these gates and three outputs.
fn drawn(gates: &[(u16, u16)], width: u8) -> Result<Job, Refusal> {
    made(4, gates, &[24, 21, 13], width)
}

/// Whether both jobs have one drawing, and map to one cover, the same arrivals and the same lists.
fn agree(job: &mut Job, twin: &mut Job) -> Result<bool, Refusal> {
    let mut mapped = Mapped::filled(0);
    let (cells, _) = mapped.map_levels(job)?;
    let mut other = Mapped::filled(0);
    let (again, _) = other.map_levels(twin)?;
    Ok(cells == again && job.table() == twin.table() && mapped == other && same_kept(job, twin))
}

/// Loads the text of the other job's drawing.
fn load_text_of(job: &mut Job, other: &Job) -> Result<(), Refusal> {
    let mut text = [0; 4376];
    let length = write(other.table(), &mut text)?;
    job.load(&text[0..length])
}

/// How many cells a drawing maps to, and the level of gate 12.
#[derive(Clone, Copy)]
struct Size {
    cells: usize,
    level: u16,
}

/// Whether the job maps to this size, with so many lists made.
fn maps_to(job: &mut Job, size: Size, lists: usize) -> Result<bool, Refusal> {
    let mut mapped = Mapped::filled(0);
    let answer = mapped.map_levels(job)?;
    Ok(answer == (size.cells, lists) && mapped.arrivals[12] == size.level)
}

/// One drawing, of the size `first`, is loaded over another with the same gate numbers, of the size `second`, and back.
fn loaded_over(width: u8, first: Size, second: Size) -> Result<bool, Refusal> {
    let mut one = drawn(&FIRST, width)?;
    let mut two = drawn(&SECOND, width)?;
    let mut job = Job::new();
    job.width(width)?;
    load_text_of(&mut job, &one)?;
    let fresh = maps_to(&mut job, first, 8)? && maps_to(&mut job, first, 0)?;
    load_text_of(&mut job, &two)?;
    let over = !job.is_kept(5) && !job.is_kept(12);
    let other = maps_to(&mut job, second, 8)? && agree(&mut job, &mut two)?;
    load_text_of(&mut job, &one)?;
    Ok(fresh && over && other && agree(&mut job, &mut one)?)
}

/// The numbers are those of `tools/reference.py`.
#[test]
fn drawings_loaded_over_each_other(rt: HostRuntime) -> Result<(), Fail> {
    let cases = [
        (2, (7, 5), (8, 6)),
        (3, (3, 2), (4, 2)),
        (4, (3, 1), (3, 1)),
        (5, (3, 1), (3, 1)),
    ];
    for (width, first, second) in cases {
        let [first, second] = [first, second].map(|(cells, level)| Size { cells, level });
        assert!(rt; loaded_over(width, first, second)?, "width {width}");
    }
    Ok(())
}

/// Ties the gates of the first drawing as in the second, in the order of the steps, and holds the job after each step to
/// one just made. A step is a gate's place in the drawings, and its fanins in the second.
fn tied_over<'a, I: Iterator<Item = (usize, &'a (u16, u16))>>(
    width: u8,
    steps: I,
) -> Result<bool, Refusal>
    requires can { I.can_next steps }
    requires ends { IsFinite (I.remaining steps) }
{
    let mut gates = FIRST;
    let mut job = drawn(&gates, width)?;
    for (place, fanins) in steps {
        let Some(tied) = gates.get_mut(place) else {
            return Ok(false);
        };
        *tied = *fanins;
        let Ok(before) = u8::try_from(place) else {
            return Ok(false);
        };
        job.retie(before.saturating_add(5), pair(*fanins))?;
        let mut twin = drawn(&gates, width)?;
        if !agree(&mut job, &mut twin)? {
            return Ok(false);
        }
    }
    Ok(true)
}

#[test]
fn gates_tied_one_after_another(rt: HostRuntime) -> Result<(), Fail> {
    for width in 2..=5u8 {
        assert!(rt;
            tied_over(width, SECOND.iter().enumerate())?,
            "width {width}"
        );
        assert!(rt;
            tied_over(width, SECOND.iter().enumerate().rev())?,
            "width {width}"
        );
    }
    Ok(())
}

/// A change of the width forgets, and the way back gives the same lists again.
#[test]
fn widths_there_and_back(rt: HostRuntime) -> Result<(), Fail> {
    let mut job = drawn(&FIRST, 2)?;
    for width in [3, 5, 2, 4, 4, 2, 5u8] {
        job.width(width)?;
        let mut twin = drawn(&FIRST, width)?;
        assert!(rt; agree(&mut job, &mut twin)?, "width {width}");
    }
    Ok(())
}

fn at(rank: u16, tag: u16) -> Rank {
    Rank { rank, tag }
}

/// A family of one's own: ranks decide, and where leaves have one rank the lowest-numbered tells the tag.
#[test]
fn a_family_of_ones_own(rt: HostRuntime) -> Result<(), Fail> {
    let mut job = made(5, &[(2, 4), (6, 8), (14, 10), (12, 16)], &[18], 3)?;
    let mut mapped = Mapped::filled(at(9, 9));
    assert_eq!(rt; mapped.map(&mut job, &Ranks::new(3)?)?, (3, 4));
    let first = [at(0, 0), at(1, 2), at(1, 2), at(1, 3), at(2, 14), at(9, 9)];
    assert_eq!(rt; &mapped.arrivals[5..11], first.as_slice());
    // neither of {4, 5} and {1, 5} is earlier, so the smaller leaf decides
    let mut next = made(3, &[(2, 2), (4, 6), (8, 10)], &[12], 2)?;
    assert_eq!(rt; mapped.map(&mut next, &Ranks::new(2)?)?, (2, 3));
    let second = [at(1, 1), at(1, 2), at(2, 14)];
    assert_eq!(rt; &mapped.arrivals[4..7], second.as_slice());
    Ok(())
}
