// Judges the cell on standard input by the rules of year 2 and prints one line: `accepted LEVEL COLUMNS POSTS` or `refused NO PLACE`.
// It only feeds stepwise intake, a column at a time through one buffer; everything that is decided is decided there.
// Given any argument it judges nothing: a line about standard input would be taken for one about a file that was named.
#![tactic(auto)]

ghost use Rattle.std.specs.Prelude.{◌≡◌, ◌≤◌, length, IfErr, ⊤};
ghost use Rattle.std.specs.Io.{ReadsAtMost};
ghost use Rattle.std.specs.declared.io.Error.{Error};
ghost use Rattle.steps.specs.Turns.{is_final};
ghost use Rattle.intake_program.specs.Found.{FilledUpTo, Settled};
ghost use Rattle.intake_program.specs.Printed.{Printed};

use answers::{Refusal, Verdict};
use std::env::FillError;
use std::io;
use std::io::{Read, Stdin, Write};
use std::rt::Env;
use steps::Steps;

// The rule year that it judges by.
const YEAR: u32 = 2;

// The longest column of any level.
const BUFFER: usize = 7214;

// What the cell is read from. Its failures are the errors that its reads answer: no other error makes an input unread.
trait Source {
    ghost IsFailure: { Error → Type 0 };

    fn read(&mut self, buffer: &mut [u8]) -> io::Result<usize>
        ensures bound { ReadsAtMost result buffer.new }
        ensures failure { IfErr result IsFailure };
}

// Nothing is known of the errors that the system answers.
impl Source for Stdin {
    ghost IsFailure = { λ _. ⊤ };

    fn read(&mut self, buffer: &mut [u8]) -> io::Result<usize> {
        Read::read(self, buffer)
    }
}

// Reads until the piece is whole or the input ends, and answers how many bytes it read: a short read is no end.
// Kept: std's `read_exact` does not tell how many bytes came before the end, and the last piece may be shorter than wanted.
fn fill<S: Source>(source: &mut S, buffer: &mut [u8], wanted: usize) -> io::Result<usize>
    requires { wanted ≤ length buffer.old }
    ensures { FilledUpTo S.IsFailure wanted result }
{
    let mut done = 0;
    while done < wanted {
        let more = source.read(&mut buffer[done..wanted])?;
        if more == 0 {
            return Ok(done);
        }
        done += more;
    }
    Ok(done)
}

// Whether no other piece is due.
fn is_final(answer: Result<Verdict, Refusal>) -> bool
    ensures { result ≡ is_final answer }
{
    !matches!(answer, Ok(Verdict::More))
}

// Feeds the input to steps until an answer is final; each "more" leaves fewer turns.
fn take_input<S: Source>(source: &mut S) -> io::Result<Result<Verdict, Refusal>>
    ensures { Settled S.IsFailure result }
{
    let mut buffer = [0u8; BUFFER];
    let mut steps = Steps::new(YEAR);
    loop {
        let n = fill(source, &mut buffer, steps.wanted())?;
        let stepped = steps.step(&buffer[..n]);
        if is_final(stepped.answer) {
            return Ok(stepped.answer);
        }
        steps = stepped.steps;
    }
}

// Prints what was found, or tells on standard error why there is nothing to print or it cannot be printed.
fn tell<W: Write, E: Write>(
    found: io::Result<Result<Verdict, Refusal>>,
    out: &mut W,
    errors: &mut E,
)
    ensures { Printed found (W.contents out.old) (W.contents out.new) (E.contents errors.old) (E.contents errors.new) }
{
    match found {
        Ok(answer) => {
            if printing::verdict(out, answer).is_err() {
                let _ = printing::write_out(errors, b"intake: standard output cannot be written\n");
            }
        }
        Err(_) => {
            let _ = printing::write_out(errors, b"intake: standard input cannot be read\n");
        }
    }
}

// Whether anything stands behind the program's own name, be it empty.
fn is_given_any(rt: &impl Env) -> bool {
    !matches!(rt.arg(1, &mut []), Err(FillError::NotPresent))
}

fn main(rt: HostRuntime) {
    if is_given_any(&rt) {
        let _ = printing::write_out(
            &mut rt.stderr(),
            b"intake: it takes no arguments; the cell comes on standard input\n",
        );
    } else {
        tell(
            take_input(&mut rt.stdin()),
            &mut rt.stdout(),
            &mut rt.stderr(),
        );
    }
}
