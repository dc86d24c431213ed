//! Tests of the families.

use crate::ranks::{Rank, Ranks};
use family::Family;
use family::fold::Arrivals;
use family::levels::Levels;
use family::pins::Pins;
use std::test::Fail;

fn at(rank: u16, tag: u16) -> Rank {
    Rank { rank, tag }
}

#[test]
fn widths_are_two_to_five(rt: HostRuntime) {
    for width in 0..=255u8 {
        let good = (2..=5).contains(&width);
        assert_eq!(rt; Levels::new(width).is_ok(), good, "width {width}");
        assert_eq!(rt; Pins::new(width).is_ok(), good, "width {width}");
        assert_eq!(rt; Ranks::new(width).is_ok(), good, "width {width}");
    }
}

#[test]
fn levels_and_pins_stop(rt: HostRuntime) -> Result<(), Fail> {
    let levels = Levels::new(5)?;
    for (latest, leaves, level) in [(0, 0, 1), (65534, 5, 65535), (65535, 5, 65535)] {
        assert_eq!(rt; levels.result(latest, leaves), level, "after {latest}");
    }
    let pins = Pins::new(5)?;
    for (latest, leaves, arrival) in [
        ((0, 0), 0, (1, 0)),
        ((1, 65534), 1, (2, 65535)),
        ((1, 65535), 1, (2, 65535)),
        ((65534, 65535), 3, (65535, 65535)),
        ((65534, 0), 3, (65535, 3)),
        ((65535, 0), 0, (65535, 65535)),
    ] {
        assert_eq!(rt; pins.result(latest, leaves), arrival, "after {latest:?}");
    }
    assert!(rt; pins.not_later((1, 65535), (2, 0)));
    assert!(rt; !pins.not_later((2, 0), (1, 65535)));
    assert!(rt; pins.not_later((2, 3), (2, 3)));
    assert!(rt; !pins.not_later((2, 4), (2, 3)));
    Ok(())
}

/// Among equal ranks the lowest-numbered leaf counts, although the arrivals differ.
#[test]
fn the_first_of_the_latest(rt: HostRuntime) -> Result<(), Fail> {
    let family = Ranks::new(4)?;
    let table = [at(0, 0), at(2, 5), at(1, 9), at(2, 7), at(0, 3), at(2, 1)];
    let arrivals = Arrivals {
        family: &family,
        table: &table,
    };
    assert_eq!(rt; arrivals.latest(&[]), at(0, 0));
    assert_eq!(rt; arrivals.latest(&[1, 2, 3]), at(2, 5));
    assert_eq!(rt; arrivals.latest(&[2, 3, 5]), at(2, 7));
    assert_eq!(rt; arrivals.latest(&[2, 4]), at(1, 9));
    assert_eq!(rt; arrivals.cell(&[2, 3, 5]), at(3, 45));
    assert_eq!(rt; arrivals.cell(&[]), at(1, 0));
    Ok(())
}
