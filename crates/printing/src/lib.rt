// One line for a verdict, into a writer: what the programs print.
#![tactic(auto)]

ghost use Rattle.std.specs.Prelude.{OnOk};
ghost use Rattle.std.specs.Io.KnownBytes.{Appends};
ghost use Rattle.answers.specs.Told.{told, intake};
ghost use Rattle.printing.specs.Line.{line_of};
ghost use Rattle.printing.specs.Written.{AppendsFront};

use answers::{Refusal, Verdict};
use std::io;
use std::io::Write;

mod lines;

use crate::lines::line_of;

// Writes the bytes: all by one write, where the writer takes so many at once. A write that fails or takes none ends it: the writer has their front.
// Kept: std's `write_all` promises nothing of what the writer has after an error, which is the clause `front`.
pub fn write_out<W: Write>(out: &mut W, bytes: &[u8]) -> io::Result<()>
    ensures whole { OnOk result (Appends (W.contents out.old) (W.contents out.new) bytes.now) }
    ensures front { AppendsFront (W.contents out.old) (W.contents out.new) bytes.now }
{
    let mut rest = bytes;
    while !rest.is_empty() {
        let taken = out.write(rest)?;
        if taken == 0 {
            return Err(io::Error::from(io::ErrorKind::WriteZero));
        }
        rest = &rest[taken..];
    }
    Ok(())
}

// Prints a verdict that ends intake by one write; nothing where more is due. After an error the writer has the front of the line.
pub fn verdict<W: Write>(out: &mut W, verdict: Result<Verdict, Refusal>) -> io::Result<()>
    ensures whole { OnOk result (Appends (W.contents out.old) (W.contents out.new) (line_of (told intake verdict))) }
    ensures front { AppendsFront (W.contents out.old) (W.contents out.new) (line_of (told intake verdict)) }
{
    let line = line_of(verdict);
    write_out(out, &line.bytes[..line.length])
}
