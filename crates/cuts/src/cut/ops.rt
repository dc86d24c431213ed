//! Making cuts, reading them, and joining two.

ghost use Rattle.std.specs.Prelude.{◌≡◌, ◌<◌, ◌≤◌, true, [], ◌∷◌, length, MatchOption};
ghost use Rattle.cuts.specs.Leaves.{leaves_of};
ghost use Rattle.drawing.specs.Drawing.{most_leaves};
ghost use Rattle.cuts.specs.Merging.{Stepped};
ghost use Rattle.drawing.specs.Sets.{rises, sub, union};

use super::{Cut, MOST_LEAVES};
use std::cmp::Ordering;

/// Whether each of the leaves is among the others.
fn subset(leaves: &[u8], others: &[u8]) -> bool
    requires { (rises 0 leaves.now ≡ true) × (rises 0 others.now ≡ true) }
    ensures { result ≡ sub leaves.now others.now }
{
    let mut a = leaves;
    let mut b = others;
    // both rise: a leaf below the first of the others is none of them, and more leaves than others are not all among them
    while a.len() <= b.len() {
        let ([x, left @ ..], [y, right @ ..]) = (a, b) else {
            return true;
        };
        if x < y {
            return false;
        }
        if x == y {
            a = left;
        }
        b = right;
    }
    false
}

/// The lowest leaf of two rows, and what is left of each behind it.
fn lowest<'a>(a: &'a [u8], b: &'a [u8]) -> Option<(u8, &'a [u8], &'a [u8])>
    requires { (rises 0 a.now ≡ true) × (rises 0 b.now ≡ true) }
    ensures { MatchOption result (union a.now b.now ≡ []) (λ t. Stepped a.now b.now t.0 t.1.now t.2.now) }
{
    match (a, b) {
        ([], []) => None,
        ([x, more @ ..], []) => Some((*x, more, b)),
        ([], [y, more @ ..]) => Some((*y, a, more)),
        ([x, left @ ..], [y, right @ ..]) => Some(match x.cmp(y) {
            Ordering::Less => (*x, left, b),
            Ordering::Equal => (*x, left, right),
            Ordering::Greater => (*y, a, right),
        }),
    }
}

impl Default for Cut {
    ghost is_default = { λ c. leaves_of c ≡ [] };

    /// No leaves.
    fn default() -> Cut {
        Cut::empty()
    }
}

impl Cut {
    /// No leaves.
    pub fn empty() -> Cut
        ensures { leaves_of result ≡ [] }
    {
        Cut {
            leaves: [0; MOST_LEAVES],
            len: 0,
        }
    }

    /// The one leaf `v`.
    pub fn single(v: u8) -> Cut
        requires { 0 < v }
        ensures { leaves_of result ≡ v ∷ [] }
    {
        Cut {
            leaves: [v, 0, 0, 0, 0],
            len: 1,
        }
    }

    /// The leaves by rising number.
    pub fn leaves(&self) -> &[u8]
        ensures { result.now ≡ leaves_of self.now }
    {
        &self.leaves[0..usize::from(self.len)]
    }

    /// Whether each leaf is one of the other cut's.
    pub fn inside(&self, other: &Cut) -> bool
        ensures { result ≡ sub (leaves_of self.now) (leaves_of other.now) }
    {
        subset(self.leaves(), other.leaves())
    }

    /// The leaves of both, unless they are more than `most`.
    pub fn join(&self, other: &Cut, most: u8) -> Option<Cut>
        requires { most ≤ most_leaves }
        ensures { MatchOption result (most < length (union (leaves_of self.now) (leaves_of other.now))) (λ c. (leaves_of c ≡ union (leaves_of self.now) (leaves_of other.now)) × (length (leaves_of c) ≤ most)) }
    {
        let mut a = self.leaves();
        let mut b = other.leaves();
        // no cut before the end: to push each leaf to one made a map at width 5 about a tenth slower
        let mut leaves = [0; MOST_LEAVES];
        let mut len = 0;
        while let Some((leaf, left, right)) = lowest(a, b) {
            if len == most {
                return None;
            }
            leaves[usize::from(len)] = leaf;
            len += 1;
            a = left;
            b = right;
        }
        Some(Cut { leaves, len })
    }
}
