//! The fields behind the first word.

ghost use Rattle.std.specs.Prelude.{◌≡◌, ◌<◌, ℕ, List, true, length, decimal};
ghost use Rattle.script.specs.Fields.{are_digits, IsByte, IsLiteral, IsPair, IsSize, pair_text, then};
ghost use Rattle.script.specs.Names.{is_word, kind_name};
ghost use Rattle.script.specs.Reads.{Reads};
ghost use Rattle.script.specs.Words.{byte_word, kind_word, literal_word};

use crate::command::Kind;
use crate::number::number;
use crate::word::split;
use drawing::node::Pair;

/// What a field of a line is read as.
pub trait Field: Sized + Drop {
    // What a field may say.
    ghost IsField: { Self → Type 0 };

    // How it is written.
    ghost field_text: { Self → List ℕ };

    /// What this text says.
    fn read(text: &[u8]) -> Option<Self>
        ensures { Reads IsField field_text text.now result };
}

/// A field that is one word.
pub trait Word: Field {
    // No space is in it.
    ghost one_word: { (x : Self) → Self.IsField x → is_word (Self.field_text x) ≡ true };
}

/// A number of 8 bits.
impl Field for u8 {
    ghost IsField = { IsByte };

    ghost field_text = { decimal };

    fn read(text: &[u8]) -> Option<u8> {
        u8::try_from(number(text)?).ok()
    }
}

impl Word for u8 {
    ghost one_word = { byte_word };
}

/// A number of 16 bits.
impl Field for u16 {
    ghost IsField = { IsLiteral };

    ghost field_text = { decimal };

    fn read(text: &[u8]) -> Option<u16> {
        u16::try_from(number(text)?).ok()
    }
}

impl Word for u16 {
    ghost one_word = { literal_word };
}

/// A number of bytes.
impl Field for usize {
    ghost IsField = { IsSize };

    ghost field_text = { decimal };

    fn read(text: &[u8]) -> Option<usize> {
        number(text)
    }
}

/// The name of a family.
impl Field for Kind {
    ghost IsField = { λ _. Unit {0} };

    ghost field_text = { kind_name };

    fn read(text: &[u8]) -> Option<Kind> {
        match text {
            b"levels" => Some(Kind::Levels),
            b"pins" => Some(Kind::Pins),
            _ => None,
        }
    }
}

impl Word for Kind {
    ghost one_word = { kind_word };
}

/// A word and what stands behind it, a space between them.
impl<A: Word, B: Field> Field for (A, B) {
    ghost IsField = { λ x. A.IsField x.0 × B.IsField x.1 };

    ghost field_text = { λ x. then (A.field_text x.0) (B.field_text x.1) };

    fn read(text: &[u8]) -> Option<(A, B)> {
        let (first, rest) = split(text);
        let first = A::read(first)?;
        let second = B::read(rest?)?;
        Some((first, second))
    }
}

/// Two literals.
impl Field for Pair {
    ghost IsField = { IsPair };

    ghost field_text = { pair_text };

    fn read(text: &[u8]) -> Option<Pair> {
        let (left, right) = Field::read(text)?;
        Some(Pair { left, right })
    }
}

/// One digit or more.
pub fn row(text: &[u8]) -> Option<&[u8]>
    ensures { Reads (λ t. (0 < length t.now) × (are_digits t.now ≡ true)) (λ x. x.now) text.now result }
{
    if text.is_empty() || !text.iter().all(u8::is_ascii_digit) {
        return None;
    }
    Some(text)
}
