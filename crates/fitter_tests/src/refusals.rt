//! Every refusal, and that nothing has changed after it.

use crate::compare::{Mapped, made, pair, same_kept};
use aiger::write;
use blif::section::{sections, write_section};
use cells::cover::evaluate::evaluate;
use drawing::refusal::{Fault, Refusal, Rule};
use family::Family;
use family::levels::Levels;
use family::pins::Pins;
use fitter::job::Job;
use std::test::Fail;

/// Whether the jobs have the same drawing, width and kept lists.
fn unchanged(job: &Job, twin: &Job) -> bool {
    job.table() == twin.table()
        && job.present_width() == twin.present_width()
        && same_kept(job, twin)
}

/// A job with inputs 1 to 3, gates 4 and 5 and one output, and what its map has filled.
fn mapped() -> Result<(Job, Mapped<u16>), Refusal> {
    let mut job = made(3, &[(2, 4), (8, 6)], &[11], 4)?;
    let mut mapped = Mapped::filled(7);
    let _ = mapped.map_levels(&mut job)?;
    Ok((job, mapped))
}

/// 1 and 2: a full drawing takes no more, whatever the literals are.
#[test]
fn full_drawings(rt: HostRuntime) -> Result<(), Fail> {
    let mut job = made(255, &[], &[0; 64], 4)?;
    let twin = made(255, &[], &[0; 64], 4)?;
    assert_eq!(rt; job.input(), Err(Refusal::NodesFull));
    assert_eq!(rt; job.gate(pair((0, 0))), Err(Refusal::NodesFull));
    assert_eq!(rt; job.gate(pair((512, 0))), Err(Refusal::NodesFull));
    assert_eq!(rt; job.output(0), Err(Refusal::OutputsFull));
    assert_eq!(rt; job.output(512), Err(Refusal::OutputsFull));
    assert!(rt; unchanged(&job, &twin));
    Ok(())
}

/// 3 and 4: literals of nodes that are not there or not below, and numbers that are no gate's.
#[test]
fn literals_and_gates(rt: HostRuntime) -> Result<(), Fail> {
    let (mut job, _) = mapped()?;
    let (twin, _) = mapped()?;
    assert_eq!(rt; job.gate(pair((12, 0))), Err(Refusal::BadLiteral));
    assert_eq!(rt; job.gate(pair((0, 65535))), Err(Refusal::BadLiteral));
    assert_eq!(rt; job.output(12), Err(Refusal::BadLiteral));
    assert_eq!(rt; job.retie(4, pair((8, 2))), Err(Refusal::BadLiteral));
    assert_eq!(rt; job.retie(4, pair((2, 11))), Err(Refusal::BadLiteral));
    for number in (0..=255u8).filter(|number| ![4, 5].contains(number)) {
        let answer = job.retie(number, pair((0, 600)));
        assert_eq!(rt; answer, Err(Refusal::NotAGate), "number {number}");
    }
    assert!(rt; unchanged(&job, &twin) && job.is_kept(4) && job.is_kept(5));
    Ok(())
}

/// 5, 9 and 10 in a map: the cover and the table stay, and so does the job but for the lists below a crowded gate.
#[test]
fn refused_maps(rt: HostRuntime) -> Result<(), Fail> {
    let (mut job, mut filled) = mapped()?;
    let (twin, kept) = mapped()?;
    assert_eq!(rt; job.width(1), Err(Refusal::BadWidth));
    assert_eq!(rt; job.width(6), Err(Refusal::BadWidth));
    assert_eq!(rt;
        filled.map(&mut job, &Levels::new(3)?),
        Err(Refusal::BadWidth)
    );
    let cover = &mut filled.cover;
    let mut pins = [(7, 7); 5];
    assert_eq!(rt;
        job.map(&Pins::new(5)?, cover, &mut pins),
        Err(Refusal::BadWidth)
    );
    assert_eq!(rt;
        job.map(&Pins::new(4)?, cover, &mut pins),
        Err(Refusal::TooShort)
    );
    assert_eq!(rt; pins, [(7, 7); 5]);
    let mut none: [u16; 0] = [];
    assert_eq!(rt;
        job.map(&Levels::new(4)?, cover, &mut none),
        Err(Refusal::TooShort)
    );
    assert!(rt; unchanged(&job, &twin) && filled == kept);
    Ok(())
}

/// A text is refused with this fault.
fn fault(rule: Rule, byte: usize, line: usize) -> Result<(), Refusal> {
    Err(Refusal::Text(Fault { rule, byte, line }))
}

/// 6, 7 and 8: a faulty text leaves the job as it was.
#[test]
fn refused_texts(rt: HostRuntime) -> Result<(), Fail> {
    let (mut job, _) = mapped()?;
    let (twin, _) = mapped()?;
    assert_eq!(rt; job.load(b"aag 1 1 0 0 0\n2"), fault(Rule::Pattern, 15, 1));
    assert_eq!(rt; job.load(b"aag 01"), fault(Rule::Pattern, 5, 0));
    assert_eq!(rt; job.load(b"aag 2 1 0 0 0\n2\n"), fault(Rule::Figures, 0, 0));
    assert_eq!(rt;
        job.load(b"aag 2 1 0 1 1\n2\n4\n4 2 4\n"),
        fault(Rule::Literal, 18, 3)
    );
    assert!(rt; unchanged(&job, &twin) && job.is_kept(4) && job.is_kept(5));
    Ok(())
}

/// 9 and 11 where a cover is evaluated: the buffer stays.
#[test]
fn rows(rt: HostRuntime) -> Result<(), Fail> {
    let (_, Mapped { cover, .. }) = mapped()?;
    let mut out = [7; 2];
    assert_eq!(rt; evaluate(&cover, &[1, 1], &mut out), Err(Refusal::TooShort));
    assert_eq!(rt;
        evaluate(&cover, &[1, 1, 1, 1], &mut out),
        Err(Refusal::TooShort)
    );
    assert_eq!(rt;
        evaluate(&cover, &[1, 2, 3], &mut out),
        Err(Refusal::BadBit(1))
    );
    assert_eq!(rt;
        evaluate(&cover, &[255, 1, 0], &mut out),
        Err(Refusal::BadBit(0))
    );
    let mut none: [u8; 0] = [];
    assert_eq!(rt;
        evaluate(&cover, &[9, 9, 9], &mut none),
        Err(Refusal::TooShort)
    );
    assert_eq!(rt; out, [7, 7]);
    assert_eq!(rt; evaluate(&cover, &[1, 1, 1], &mut out), Ok(()));
    assert_eq!(rt; out, [0, 7]);
    Ok(())
}

/// 9 and 12 where texts are written: the buffers stay.
#[test]
fn buffers(rt: HostRuntime) -> Result<(), Fail> {
    let (job, Mapped { cover, .. }) = mapped()?;
    let mut text = [7; 29];
    let mut none: [u8; 0] = [];
    assert_eq!(rt; sections(&cover), 4);
    assert_eq!(rt;
        write_section(&cover, 4, &mut text),
        Err(Refusal::NoSection)
    );
    assert_eq!(rt;
        write_section(&cover, 4, &mut none),
        Err(Refusal::NoSection)
    );
    assert_eq!(rt; write_section(&cover, 0, &mut text), Err(Refusal::TooShort));
    assert_eq!(rt; write(job.table(), &mut text), Err(Refusal::TooShort));
    assert_eq!(rt; text, [7; 29]);
    assert_eq!(rt; write_section(&cover, 1, &mut text), Ok(25));
    assert_eq!(rt; &text, b".names n1 n2 n3 n5\n111 1\n\x07\x07\x07\x07");
    Ok(())
}
