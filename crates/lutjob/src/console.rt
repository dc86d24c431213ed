//! Where a script is read and answered.

ghost use Rattle.std.specs.Prelude.{◌≤◌, length, IfOk};

use crate::answer::Answer;
use drawing::refusal::Refusal;
use std::alloc::Global;
use std::fmt::Display;
use std::io;
use std::io::{BufRead, ErrorKind, Read, Write};

/// A script, where its answers go, and the heap.
#[derive(Drop)]
pub struct Console<R, W> {
    script: R,
    out: W,
    heap: Global,
}

impl<R: BufRead + Drop, W: Write + Drop> Console<R, W> {
    pub fn new(script: R, out: W, heap: Global) -> Console<R, W> {
        Console { script, out, heap }
    }

    pub fn heap(&self) -> Global {
        self.heap
    }

    /// Reads the next line into this vector, in place of what it holds, without its end; the last line may lack an end.
    pub fn next_line(&mut self, mut line: Vec<u8>) -> io::Result<Option<Vec<u8>>> {
        line.clear();
        if self.script.read_until(b'\n', &mut line)? == 0 {
            return Ok(None);
        }
        if line.last() == Some(&b'\n') {
            let _ = line.pop();
        }
        Ok(Some(line))
    }

    /// Reads a text of `size` bytes, and the line's end behind it, which may lack at the end of the script.
    /// `None` where the text is not whole, or anything stands between it and the line's end.
    pub fn next_text(&mut self, size: usize) -> io::Result<Option<Vec<u8>>> {
        let mut text = vec![in self.heap; 0; size]?;
        let is_whole = match self.script.read_exact(text.as_mut_slice()) {
            Ok(()) => true,
            Err(error) if error.kind() == ErrorKind::UnexpectedEof => false,
            Err(error) => return Err(error),
        };
        let rest = self.next_line(Vec::new(self.heap))?;
        let is_alone = rest.is_none_or(|rest| rest.is_empty());
        Ok(if is_whole && is_alone {
            Some(text)
        } else {
            None
        })
    }

    /// Writes the answer to a call of the job.
    pub fn answer<T: Into<Answer> + Drop>(
        &mut self,
        outcome: Result<T, Refusal>,
    ) -> io::Result<()> {
        self.write_line(Answer::from(outcome))
    }

    /// Writes a line.
    pub fn write_line<D: Display + Drop>(&mut self, text: D) -> io::Result<()> {
        self.out.writeln(text)
    }

    /// Writes a line of digits.
    pub fn write_digits(&mut self, digits: &[u8]) -> io::Result<()> {
        for digit in digits {
            write!(self.out, "{digit}")?;
        }
        self.out.write_all(b"\n")
    }

    /// Writes the beginning of a buffer that a text was put into, or why it was refused.
    pub fn write_text(&mut self, written: Result<usize, Refusal>, buffer: &[u8]) -> io::Result<()>
        requires { IfOk written (λ n. n ≤ length buffer.now) }
    {
        match written {
            Ok(length) => self.out.write_all(&buffer[..length]),
            Err(refusal) => self.write_line(Answer::Refused(refusal)),
        }
    }

    /// Hands on what is written so far.
    pub fn flush(&mut self) -> io::Result<()> {
        self.out.flush()
    }
}
