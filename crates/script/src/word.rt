//! Words of a line: what stands between spaces.

ghost use Rattle.script.specs.Fields.{then};
ghost use Rattle.script.specs.Names.{is_word};
ghost use Rattle.std.specs.Prelude.{◌≡◌, true, MatchOption};

/// The text before the first space, and what stands behind that space.
pub fn split(text: &[u8]) -> (&[u8], Option<&[u8]>)
    ensures word { is_word result.0.now ≡ true }
    ensures whole { MatchOption result.1 (result.0.now ≡ text.now) (λ t. then result.0.now t.now ≡ text.now) }
{
    match text.iter().position(|byte| *byte == b' ') {
        Some(space) => (&text[..space], Some(&text[space + 1..])),
        None => (text, None),
    }
}
