//! Items that are printed in one line.

use std::fmt;
use std::fmt::Display;

/// Items with a separator between two.
#[derive(Clone, Copy)]
pub struct Joined<'a, T> {
    pub items: &'a [T],
    pub separator: &'a str,
}

impl<T: Display> Display for Joined<'_, T> {
    // so that each use is compiled with its own separator
    #[inline(always)]
    fn fmt<W: fmt::Write>(&self, f: &mut fmt::Formatter<W>) -> fmt::Result {
        for (i, item) in self.items.iter().enumerate() {
            if i > 0 {
                f.write_str(self.separator)?;
            }
            write!(f, "{item}")?;
        }
        Ok(())
    }
}

/// Items with a space between two.
pub fn spaced<T>(items: &[T]) -> Joined<'_, T> {
    Joined {
        items,
        separator: " ",
    }
}
