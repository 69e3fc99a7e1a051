// The printed line as bytes in a lent buffer: one of five words, decimal fields with a blank before each, and a line feed.
// They are put here and by no `Display`: each contract names every byte, and what a format writes into a lent buffer the library does not say. A writer of our own
// that said it would put each byte as these functions do.
#![tactic(auto)]

ghost use Rattle.std.specs.Prelude.{◌≡◌, [], ◌∷◌, ◌++◌, ◌+◌, ◌≤◌, length};
ghost use Rattle.std.proofs.lemmas.List.Edits.{sets as stored};
ghost use Rattle.decimal.specs.Fields.{capped};
ghost use Rattle.line.specs.Lines.{row, answer_of, line_of};
ghost use Rattle.line.specs.Placing.{Placed};

use std::error::Error;
use std::fmt;

// What is printed. The commands of a plan come beside it, as bytes.
#[derive(Clone, Copy, Debug, PartialEq, Eq)]
pub enum Line {
    Plan { count: usize, length: usize },
    None { count: usize },
    Room { count: usize },
    Long { count: usize, length: usize },
    // Kept as a number: `line_table` prints one that no refusal has.
    Bad { refusal: u8, place: usize },
}

// The buffer is too short: how many bytes it has to have, the largest number standing for all above it too.
#[derive(Clone, Copy, Debug, PartialEq, Eq)]
pub struct Short {
    pub needed: usize,
}

impl fmt::Display for Short {
    ghost use Rattle.std.specs.Prelude.{Some};
    ghost use Rattle.line.specs.Text.{short_text};

    ghost output = { λ e. Some (short_text e) };

    fn fmt<W: fmt::Write>(&self, f: &mut fmt::Formatter<W>) -> fmt::Result {
        let needed = self.needed;
        write!(f, "the buffer is too short: {needed} bytes are needed")
    }
}

impl Error for Short {}

// Where a line ends that starts at a place.
#[tactic(auto, using(crate::proofs::RowLaws::row_lengths))]
fn after_row(at: usize, word: &[u8], fields: &[u64], commands: &[u8]) -> usize
    ensures { result ≡ capped (at + length (row word.now (fields.now ++ commands.now))) }
{
    let start = at.saturating_add(word.len());
    let middle = decimal::after_fields(start, fields);
    let end = decimal::after_fields(middle, commands);
    end.saturating_add(1)
}

// The bytes of a word, put at a place. Each function that puts bytes says where they end. Buffer and place are kept apart: the caller of `put_at` has both, and a
// struct of the two would name the same bytes through one more field.
fn put_word(out: &mut [u8], at: usize, word: &[u8]) -> usize
    requires { at + length word.now ≤ length out.old }
    ensures value { result ≡ at + length word.now }
    ensures out_after { out.new ≡ stored out.old at word.now }
{
    let end = at + word.len();
    out[at..end].copy_from_slice(word);
    end
}

// A whole line, where the buffer has room for it.
#[tactic(auto, using(crate::proofs::RowLaws::row_lengths))]
fn put_parts(out: &mut [u8], at: usize, word: &[u8], fields: &[u64], commands: &[u8])
    requires { at + length (row word.now (fields.now ++ commands.now)) ≤ length out.old }
    ensures { out.new ≡ stored out.old at (row word.now (fields.now ++ commands.now)) }
{
    let start = put_word(out, at, word);
    let middle = decimal::put_fields(out, start, fields);
    let end = decimal::put_fields(out, middle, commands);
    put_word(out, end, b"\n");
}

// A line of any word, fields and commands, at a place of the buffer: where it ends. Too short a buffer stays as it is. The three stay apart: a struct of them would be
// taken apart again in each function.
pub fn put_row(
    word: &[u8],
    fields: &[u64],
    commands: &[u8],
    out: &mut [u8],
    at: usize,
) -> Result<usize, Short>
    ensures { Placed (row word.now (fields.now ++ commands.now)) at out.old out.new result }
{
    let end = after_row(at, word, fields, commands);
    if out.len() < end {
        return Err(Short { needed: end });
    }
    put_parts(out, at, word, fields, commands);
    Ok(end)
}

// The same with two fields and no commands.
fn put_two(word: &[u8], first: u64, second: u64, out: &mut [u8], at: usize) -> Result<usize, Short>
    ensures { Placed (row word.now (first ∷ second ∷ [])) at out.old out.new result }
{
    put_row(word, &[first, second], b"", out, at)
}

// The line of an answer, at a place of the buffer. The commands are printed where it is a plan.
pub fn put_at(line: Line, commands: &[u8], out: &mut [u8], at: usize) -> Result<usize, Short>
    ensures { Placed (line_of (answer_of line commands.now)) at out.old out.new result }
{
    match line {
        Line::Plan { count, length } => {
            put_row(b"PLAN", &[count as u64, length as u64], commands, out, at)
        }
        Line::None { count } => put_two(b"NONE", count as u64, 0, out, at),
        Line::Room { count } => put_two(b"ROOM", count as u64, 0, out, at),
        Line::Long { count, length } => put_two(b"LONG", count as u64, length as u64, out, at),
        Line::Bad { refusal, place } => put_two(b"BAD", refusal.into(), place as u64, out, at),
    }
}

// The same at the start of the buffer.
pub fn put(line: Line, commands: &[u8], out: &mut [u8]) -> Result<usize, Short>
    ensures { Placed (line_of (answer_of line commands.now)) 0 out.old out.new result }
{
    put_at(line, commands, out, 0)
}
