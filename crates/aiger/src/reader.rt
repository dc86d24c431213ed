//! The reader of a text.

ghost use Rattle.std.specs.Prelude.{◌≡◌, ℕ, ◌+◌, ◌<◌, ◌≤◌, List, [], IfOk, None, Ok, Err, MatchResult, length};
ghost use Rattle.aiger.specs.Reads.{read};
ghost use Rattle.aiger.specs.States.{Begins, drawn, First, go_on, Heading, Row, Sound, Steps};
ghost use Rattle.aiger.specs.Text.{text as text_of};
ghost use Rattle.aiger.specs.declared.part.Part.TheVariants.{Word, Header as InHeader, Lines};
ghost use Rattle.drawing.specs.Drawing.{most_outputs};
ghost use Rattle.drawing.specs.Tables.{drawing_of};

use crate::draft::Draft;
use crate::header::Header;
use crate::line::Line;
use crate::part::{Kind, Part};
use drawing::refusal::{Fault, Rule};
use drawing::table::Table;
use drawing::table::calls::MOST_NODES;

/// The word that a text begins with.
const WORD: [u8; 4] = *b"aag ";

/// The drawing of a text, or the text's first fault.
pub fn read(text: &[u8]) -> Result<Table, Fault>
    ensures reads { MatchResult result (λ t. read text.now ≡ Ok (drawing_of t)) (λ f. read text.now ≡ Err f) }
    ensures back { IfOk result (λ t. text.now ≡ text_of (drawing_of t)) }
{
    let mut reader = Reader::new();
    for byte in text {
        reader.byte(*byte)?;
        reader.line.pass(*byte);
    }
    let draft = reader.finish()?;
    Ok(draft.table())
}

// A state machine on purpose: `byte` matches the part and the byte together, and changes the part in place.
/// A reader in the middle of a text.
#[derive(Drop)]
pub struct Reader {
    part: Part,
    line: Line,
    /// How many lines of each kind come after this one.
    inputs: usize,
    outputs: usize,
    gates: usize,
    /// All nodes, of which no line names any, until the header says how many there are.
    draft: Draft,
}

impl Reader {
    /// Before the first byte.
    fn new() -> Reader
        ensures sound { Sound result }
        ensures start { (result.line.pos ≡ 0) × (((bs : List ℕ) → go_on result bs ≡ read bs)) }
    {
        Reader {
            part: Part::Word(0),
            line: Line::first(),
            inputs: 0,
            outputs: 0,
            gates: 0,
            draft: Draft::new(MOST_NODES - 1),
        }
    }

    /// One more byte of the text, which the reader still stands at: part and byte together decide what follows.
    fn byte(&mut self, byte: u8) -> Result<(), Fault>
        requires { Sound self.old }
        ensures { Steps self.old byte result self.new }
    {
        match (self.part, byte) {
            (Part::Word(letters), _) => self.letter(letters, byte),
            (Part::Header, b'\n') => self.header(),
            (Part::Lines(kind), b'\n') => self.literals(kind),
            (Part::Header | Part::Lines(_), _) => self.line.take(byte),
            (Part::End, _) => Err(self.line.broken()),
        }
    }

    /// The text ends here.
    fn finish(self) -> Result<Draft, Fault>
        requires { Sound self }
        ensures { MatchResult result (λ t. go_on self [] ≡ Ok (drawn t)) (λ f. go_on self [] ≡ Err f) }
    {
        match self.part {
            Part::End => Ok(self.draft),
            _ => Err(self.line.broken()),
        }
    }

    /// A letter of the first word, behind so many others.
    fn letter(&mut self, letters: usize, byte: u8) -> Result<(), Fault>
        requires { (self.old.part ≡ Word letters) × (First letters self.old.line) }
        ensures { Steps self.old byte result self.new }
    {
        if byte != WORD[letters] {
            return Err(self.line.broken());
        }
        if letters < 3 {
            self.part = Part::Word(letters + 1);
        } else {
            self.part = Part::Header;
        }
        Ok(())
    }

    /// The header's figures end here.
    fn header(&mut self) -> Result<(), Fault>
        requires { (self.old.part ≡ InHeader) × (Heading self.old.line) }
        ensures { Steps self.old 10 result self.new }
    {
        let figures = self.line.close()?;
        let header = Header::of(&figures).ok_or(Fault {
            rule: Rule::Figures,
            byte: 0,
            line: 0,
        })?;
        self.draft = Draft::new(header.last);
        self.inputs = header.inputs;
        self.outputs = header.outputs;
        self.gates = header.gates;
        self.next();
        Ok(())
    }

    /// The literals of a line end here.
    fn literals(&mut self, kind: Kind) -> Result<(), Fault>
        requires { (self.old.part ≡ Lines kind) × (Row kind self.old) }
        ensures { Steps self.old 10 result self.new }
    {
        let misplaced = self.line.misplaced();
        let literals = self.line.close()?;
        self.draft.put(kind, &literals).ok_or(misplaced)?;
        self.next();
        Ok(())
    }

    /// Behind this byte the next line begins, and with it perhaps another part.
    fn next(&mut self)
        requires room { length self.old.draft.outputs.items + self.old.outputs ≤ most_outputs }
        requires empty { (self.old.line.numbers.items ≡ []) × (self.old.line.number ≡ None) }
        ensures { Begins self.old self.new }
    {
        if self.inputs > 0 {
            self.inputs -= 1;
            self.part = Part::Lines(Kind::Inputs);
            self.line.more = Kind::Inputs.width();
        } else if self.outputs > 0 {
            self.outputs -= 1;
            self.part = Part::Lines(Kind::Outputs);
            self.line.more = Kind::Outputs.width();
        } else if self.gates > 0 {
            self.gates -= 1;
            self.part = Part::Lines(Kind::Gates);
            self.line.more = Kind::Gates.width();
        } else {
            self.part = Part::End;
            self.line.more = 0;
        }
    }
}
