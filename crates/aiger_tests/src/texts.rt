//! Texts with what is owed for each: the expected faults and lengths were worked out by tools/aiger_oracle.py, a separate reader written from the rules.

use aiger::{read, write};
use drawing::node::Pair;
use drawing::refusal::{Fault, Refusal, Rule};
use drawing::table::Table;
use std::process::Abort;
use std::test::Fail;

/// A text with a fault: the rule that it breaks, and the byte and the line where it shows.
type Faulty = (&'static str, Rule, usize, usize);

/// Texts that are accepted.
const GOOD_TEXTS: [&str; 10] = [
    "aag 0 0 0 0 0\n",
    "aag 0 0 0 2 0\n0\n1\n",
    "aag 1 1 0 0 0\n2\n",
    "aag 1 1 0 3 0\n2\n2\n3\n0\n",
    "aag 1 0 0 1 1\n3\n2 0 1\n",
    "aag 5 3 0 1 2\n2\n4\n6\n11\n8 2 4\n10 8 6\n",
    "aag 2 1 0 0 1\n4\n2 1 1\n",
    "aag 3 1 0 2 2\n4\n6\n1\n2 0 0\n6 5 3\n",
    "aag 4 2 0 1 2\n2\n6\n9\n4 2 3\n8 7 4\n",
    "aag 6 6 0 0 0\n2\n4\n6\n8\n10\n12\n",
];

/// Beginnings of good texts.
const EARLY_ENDS: [Faulty; 22] = [
    ("", Rule::Pattern, 0, 0),
    ("a", Rule::Pattern, 1, 0),
    ("aa", Rule::Pattern, 2, 0),
    ("aag", Rule::Pattern, 3, 0),
    ("aag ", Rule::Pattern, 4, 0),
    ("aag 1", Rule::Pattern, 5, 0),
    ("aag 12", Rule::Pattern, 6, 0),
    ("aag 255", Rule::Pattern, 7, 0),
    ("aag 1 ", Rule::Pattern, 6, 0),
    ("aag 1 1", Rule::Pattern, 7, 0),
    ("aag 1 1 0 0", Rule::Pattern, 11, 0),
    ("aag 1 1 0 0 0", Rule::Pattern, 13, 0),
    ("aag 1 1 0 0 0\n", Rule::Pattern, 14, 1),
    ("aag 1 1 0 0 0\n2", Rule::Pattern, 15, 1),
    ("aag 2 1 0 1 1\n2\n", Rule::Pattern, 16, 2),
    ("aag 2 1 0 1 1\n2\n4", Rule::Pattern, 17, 2),
    ("aag 2 1 0 1 1\n2\n4\n", Rule::Pattern, 18, 3),
    ("aag 2 1 0 1 1\n2\n4\n4", Rule::Pattern, 19, 3),
    ("aag 2 1 0 1 1\n2\n4\n4 ", Rule::Pattern, 20, 3),
    ("aag 2 1 0 1 1\n2\n4\n4 2", Rule::Pattern, 21, 3),
    ("aag 2 1 0 1 1\n2\n4\n4 2 ", Rule::Pattern, 22, 3),
    ("aag 2 1 0 1 1\n2\n4\n4 2 2", Rule::Pattern, 23, 3),
];

/// Headers that break the pattern.
const BROKEN_HEADERS: [Faulty; 23] = [
    ("b", Rule::Pattern, 0, 0),
    ("aig 0 0 0 0 0\n", Rule::Pattern, 1, 0),
    ("aag0 0 0 0 0\n", Rule::Pattern, 3, 0),
    ("AAG 0 0 0 0 0\n", Rule::Pattern, 0, 0),
    ("\naag 0 0 0 0 0\n", Rule::Pattern, 0, 0),
    ("aag  0 0 0 0 0\n", Rule::Pattern, 4, 0),
    ("aag 0  0 0 0 0\n", Rule::Pattern, 6, 0),
    ("aag 01", Rule::Pattern, 5, 0),
    ("aag 00 0 0 0 0\n", Rule::Pattern, 5, 0),
    ("aag 1000 0 0 0 0\n", Rule::Pattern, 7, 0),
    ("aag 0 0 0 0\n", Rule::Pattern, 11, 0),
    ("aag 0 0 0 0 0 0\n", Rule::Pattern, 13, 0),
    ("aag 0 0 0 0 0 \n", Rule::Pattern, 13, 0),
    ("aag 0 0 0 0 0\r\n", Rule::Pattern, 13, 0),
    ("aag\t0 0 0 0 0\n", Rule::Pattern, 3, 0),
    ("aag -1 0 0 0 0\n", Rule::Pattern, 4, 0),
    ("aag +1 0 0 0 0\n", Rule::Pattern, 4, 0),
    ("aag 0x 0 0 0 0\n", Rule::Pattern, 5, 0),
    ("aag 0,0 0 0 0\n", Rule::Pattern, 5, 0),
    ("aag / 0 0 0 0\n", Rule::Pattern, 4, 0),
    ("aag : 0 0 0 0\n", Rule::Pattern, 4, 0),
    ("aag 1 0 0 0 0x\n", Rule::Pattern, 13, 0),
    ("aag \n", Rule::Pattern, 4, 0),
];

/// Headers whose figures are outside the rules.
const BAD_FIGURES: [Faulty; 12] = [
    ("aag 1 0 0 0 0\n", Rule::Figures, 0, 0),
    ("aag 0 1 0 0 0\n2\n", Rule::Figures, 0, 0),
    ("aag 2 1 0 0 0\n2\n", Rule::Figures, 0, 0),
    ("aag 1 1 1 0 0\n2\n", Rule::Figures, 0, 0),
    ("aag 1 1 0 65 0\n", Rule::Figures, 0, 0),
    ("aag 256 256 0 0 0\n", Rule::Figures, 0, 0),
    ("aag 256 0 0 0 256\n", Rule::Figures, 0, 0),
    ("aag 999 999 0 0 0\n", Rule::Figures, 0, 0),
    ("aag 0 0 0 999 0\n", Rule::Figures, 0, 0),
    ("aag 0 255 0 0 1\n", Rule::Figures, 0, 0),
    ("aag 2 1 0 0 0 \n2\n", Rule::Pattern, 13, 0),
    ("aag 2 1 0 0 0\nxyz", Rule::Figures, 0, 0),
];

/// The largest figures, and one past them.
const LIMITS: [Faulty; 4] = [
    ("aag 255 255 0 0 0\n", Rule::Pattern, 18, 1),
    ("aag 0 0 0 64 0\n", Rule::Pattern, 15, 1),
    ("aag 255 0 0 0 255\n", Rule::Pattern, 18, 1),
    ("aag 254 255 0 0 0\n", Rule::Figures, 0, 0),
];

/// Lines of inputs.
const BAD_INPUTS: [Faulty; 17] = [
    ("aag 1 1 0 0 0\n0\n", Rule::Literal, 14, 1),
    ("aag 1 1 0 0 0\n1\n", Rule::Literal, 14, 1),
    ("aag 1 1 0 0 0\n3\n", Rule::Literal, 14, 1),
    ("aag 1 1 0 0 0\n4\n", Rule::Literal, 14, 1),
    ("aag 2 2 0 0 0\n2\n2\n", Rule::Literal, 16, 2),
    ("aag 2 2 0 0 0\n4\n2\n", Rule::Literal, 16, 2),
    ("aag 2 2 0 0 0\n2\n5\n", Rule::Literal, 16, 2),
    ("aag 2 2 0 0 0\n2\n6\n", Rule::Literal, 16, 2),
    ("aag 1 1 0 0 0\n02\n", Rule::Pattern, 15, 1),
    ("aag 1 1 0 0 0\n 2\n", Rule::Pattern, 14, 1),
    ("aag 1 1 0 0 0\n2 \n", Rule::Pattern, 15, 1),
    ("aag 1 1 0 0 0\n2\r\n", Rule::Pattern, 15, 1),
    ("aag 1 1 0 0 0\n\n", Rule::Pattern, 14, 1),
    ("aag 1 1 0 0 0\n2 4\n", Rule::Pattern, 15, 1),
    ("aag 1 1 0 0 0\n1000\n", Rule::Pattern, 17, 1),
    ("aag 1 1 0 0 0\n999\n", Rule::Literal, 14, 1),
    ("aag 2 2 0 0 0\n5\nx\n", Rule::Literal, 14, 1),
];

/// Lines of outputs.
const BAD_OUTPUTS: [Faulty; 8] = [
    ("aag 1 1 0 1 0\n2\n4\n", Rule::Literal, 16, 2),
    ("aag 1 1 0 1 0\n2\n5\n", Rule::Literal, 16, 2),
    ("aag 1 1 0 2 0\n2\n3\n4\n", Rule::Literal, 18, 3),
    ("aag 0 0 0 1 0\n2\n", Rule::Literal, 14, 1),
    ("aag 0 0 0 1 0\n00\n", Rule::Pattern, 15, 1),
    ("aag 0 0 0 1 0\n-\n", Rule::Pattern, 14, 1),
    ("aag 0 0 0 1 0\n1 1\n", Rule::Pattern, 15, 1),
    ("aag 0 0 0 2 0\n1\n\n", Rule::Pattern, 16, 2),
];

/// Lines of gates.
const BAD_GATES: [Faulty; 20] = [
    ("aag 1 0 0 0 1\n0 0 0\n", Rule::Literal, 14, 1),
    ("aag 1 0 0 0 1\n3 0 0\n", Rule::Literal, 14, 1),
    ("aag 1 0 0 0 1\n4 0 0\n", Rule::Literal, 14, 1),
    ("aag 1 0 0 0 1\n2 2 0\n", Rule::Literal, 14, 1),
    ("aag 1 0 0 0 1\n2 0 3\n", Rule::Literal, 14, 1),
    ("aag 1 0 0 0 1\n2 0 4\n", Rule::Literal, 14, 1),
    ("aag 2 1 0 0 1\n4\n4 2 2\n", Rule::Literal, 16, 2),
    ("aag 2 1 0 0 1\n2\n4 2 5\n", Rule::Literal, 16, 2),
    ("aag 2 1 0 0 1\n2\n4 4 2\n", Rule::Literal, 16, 2),
    ("aag 2 0 0 0 2\n2 0 0\n2 0 0\n", Rule::Literal, 20, 2),
    ("aag 2 0 0 0 2\n4 0 0\n2 0 0\n", Rule::Literal, 20, 2),
    ("aag 2 1 0 0 1\n2\n2 0 0\n", Rule::Literal, 16, 2),
    ("aag 1 0 0 0 1\n2 0\n", Rule::Pattern, 17, 1),
    ("aag 1 0 0 0 1\n2 0 0 0\n", Rule::Pattern, 19, 1),
    ("aag 1 0 0 0 1\n2  0 0\n", Rule::Pattern, 16, 1),
    ("aag 1 0 0 0 1\n2 00 0\n", Rule::Pattern, 17, 1),
    ("aag 1 0 0 0 1\n2 0 1000\n", Rule::Pattern, 21, 1),
    ("aag 1 0 0 0 1\n2 0 0\t\n", Rule::Pattern, 19, 1),
    ("aag 2 0 0 0 2\n3 0 0\n4 0 x\n", Rule::Literal, 14, 1),
    ("aag 3 1 0 1 2\n4\n7\n2 0 1\n6 4 6\n", Rule::Literal, 24, 4),
];

/// Bytes behind the last line.
const TRAILING: [Faulty; 7] = [
    ("aag 0 0 0 0 0\n\n", Rule::Pattern, 14, 1),
    ("aag 0 0 0 0 0\n ", Rule::Pattern, 14, 1),
    ("aag 0 0 0 0 0\nc\n", Rule::Pattern, 14, 1),
    ("aag 1 1 0 0 0\n2\n4\n", Rule::Pattern, 16, 2),
    ("aag 1 1 0 1 0\n2\n2\ni0 x\n", Rule::Pattern, 18, 3),
    ("aag 1 0 0 0 1\n2 0 0\n2 0 0\n", Rule::Pattern, 20, 2),
    ("aag 1 1 0 0 0\n2\n\0", Rule::Pattern, 16, 2),
];

/// Holds each text to its fault.
fn refused(rt: &impl Abort, cases: &[Faulty]) {
    for (text, rule, byte, line) in cases {
        let fault = Fault {
            rule: *rule,
            byte: *byte,
            line: *line,
        };
        assert_eq!(rt; read(text.as_bytes()).err(), Some(fault), "of {text:?}");
    }
}

/// Whether a text that is read is written as it was.
fn comes_back(text: &[u8]) -> Result<bool, Refusal> {
    let table = read(text)?;
    let mut buffer = [0; 4376];
    let length = write(&table, &mut buffer)?;
    Ok(&buffer[..length] == text)
}

/// The drawing of 255 inputs and 64 outputs.
fn widest() -> Result<Table, Refusal> {
    let mut table = Table::new();
    for _ in 0..255 {
        let _ = table.input()?;
    }
    for _ in 0..64 {
        let _ = table.output(511)?;
    }
    Ok(table)
}

/// The drawing of 255 gates, each over the node below it.
fn deepest() -> Result<Table, Refusal> {
    let mut table = Table::new();
    for v in 0..255 {
        let _ = table.gate(Pair {
            left: 2 * v,
            right: 2 * v + 1,
        })?;
    }
    Ok(table)
}

/// Holds the text of the drawing to this length, and reads it back.
fn written(rt: &impl Abort, table: &Table, length: usize) {
    let mut buffer = [0; 4376];
    assert_eq!(rt; write(table, &mut buffer), Ok(length));
    assert_eq!(rt;
        comes_back(&buffer[..length]),
        Ok(true),
        "of length {length}"
    );
}

#[test]
fn accepts(rt: HostRuntime) {
    for text in GOOD_TEXTS {
        assert_eq!(rt; comes_back(text.as_bytes()), Ok(true), "of {text:?}");
    }
}

#[test]
fn refuses(rt: HostRuntime) {
    refused(&rt, &EARLY_ENDS);
    refused(&rt, &BROKEN_HEADERS);
    refused(&rt, &BAD_FIGURES);
    refused(&rt, &LIMITS);
    refused(&rt, &BAD_INPUTS);
    refused(&rt, &BAD_OUTPUTS);
    refused(&rt, &BAD_GATES);
    refused(&rt, &TRAILING);
}

#[test]
fn writes(rt: HostRuntime) -> Result<(), Fail> {
    let table = read(b"aag 3 2 0 1 1\n2\n4\n6\n6 2 5\n")?;
    let mut buffer = [7; 27];
    assert_eq!(rt; write(&table, &mut buffer), Ok(26));
    assert_eq!(rt; &buffer, b"aag 3 2 0 1 1\n2\n4\n6\n6 2 5\n\x07");
    let mut short = [7; 25];
    assert_eq!(rt; write(&table, &mut short), Err(Refusal::TooShort));
    assert_eq!(rt; short, [7; 25]);
    Ok(())
}

#[test]
fn largest(rt: HostRuntime) -> Result<(), Fail> {
    written(&rt, &Table::new(), 14);
    written(&rt, &widest()?, 1242);
    written(&rt, &deepest()?, 2915);
    Ok(())
}
