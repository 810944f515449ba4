// The line of a verdict, made in an array, so that it can be written at once.
ghost use Rattle.std.specs.Prelude.{◌≡◌, ◌+◌, ◌≤◌, length};
ghost use Rattle.answers.specs.Told.{told, intake};
ghost use Rattle.octets.specs.Pastes.{pasted};
ghost use Rattle.printing.specs.Line.{width_of, item, accepted_line, refused_line, line_of, in_array};

use answers::{Numbered, Refusal, Verdict};
use octets::digits::put_digits;
use octets::pastes::paste;

// The longest line: `accepted `, and three numbers of 20 digits with a byte behind each.
const ROOM: usize = 72;

#[derive(Clone, Copy)]
pub struct Line {
    pub bytes: [u8; ROOM],
    pub length: usize,
}

// How many decimal digits a number has. Kept: a loop that counts digits, and no index.
fn width(v: usize) -> usize
    ensures { (result ≡ width_of v) × (result ≤ 20) }
{
    let mut rest = v;
    let mut n = 1;
    while 10 <= rest {
        rest /= 10;
        n += 1;
    }
    n
}

// A number and a byte behind it, over what stands at `at`; answers where they end.
fn put_item(s: &mut [u8], at: usize, v: usize, behind: u8) -> usize
    requires { at + 21 ≤ length s.old }
    ensures { (s.new ≡ pasted s.old at (item v behind)) × ((result ≡ at + length (item v behind)) × (result ≤ at + 21)) }
{
    let n = width(v);
    put_digits(s, at, n, v);
    s[at + n] = behind;
    at + n + 1
}

fn put_accepted(s: &mut [u8], level: usize, columns: usize, posts: usize) -> usize
    requires { 72 ≤ length s.old }
    ensures { (s.new ≡ pasted s.old 0 (accepted_line level columns posts)) × ((result ≡ length (accepted_line level columns posts)) × (result ≤ 72)) }
{
    paste(s, 0, b"accepted ");
    let second = put_item(s, 9, level, b' ');
    let third = put_item(s, second, columns, b' ');
    put_item(s, third, posts, b'\n')
}

fn put_refused(s: &mut [u8], number: usize, place: usize) -> usize
    requires { 72 ≤ length s.old }
    ensures { (s.new ≡ pasted s.old 0 (refused_line number place)) × ((result ≡ length (refused_line number place)) × (result ≤ 72)) }
{
    paste(s, 0, b"refused ");
    let second = put_item(s, 8, number, b' ');
    put_item(s, second, place, b'\n')
}

// The line of a verdict: the first `length` of the bytes. Kept: an array with a length, and no `Display`: std's formatting promises of a
// text only that it has the line where it went well, so neither that every line has room would be proved, nor that one comes out.
pub fn line_of(verdict: Result<Verdict, Refusal>) -> Line
    ensures { (result.bytes ≡ in_array (line_of (told intake verdict))) × ((result.length ≡ length (line_of (told intake verdict))) × (result.length ≤ length result.bytes)) }
{
    let mut bytes = [0u8; ROOM];
    let length = match verdict {
        Ok(Verdict::More) => 0,
        Ok(
            Verdict::Accepted {
                level,
                columns,
                posts,
            },
        ) => put_accepted(&mut bytes, level, columns, posts),
        Err(refusal) => {
            let Numbered(number, place) = answers::number(refusal);
            put_refused(&mut bytes, number, place)
        }
    };
    Line { bytes, length }
}
