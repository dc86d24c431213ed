//! Names put on a pen.

ghost use Rattle.std.specs.Prelude.{◌<◌, ◌∷◌};
ghost use Rattle.blif.specs.Text.{name};
ghost use Rattle.pen.specs.Wrote.{Wrote};

use pen::Pen;

/// Puts a space and a name: a letter and a number.
pub fn put_name(pen: &mut Pen<'_>, letter: u8, n: usize)
    requires { n < 1000 }
    ensures { Wrote pen.old (32 ∷ name letter n) pen.new }
{
    pen.text(&[b' ', letter]);
    pen.number(n);
}
