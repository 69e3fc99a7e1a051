// What a sheet shows: its counts, and its following sets straight from the caller's bytes. A refused sheet has no states and no commands in it.
#![tactic(auto)]

ghost use Rattle.std.specs.Prelude.{◌≡◌, length};
ghost use Rattle.sets.specs.Words.{set_for};
ghost use Rattle.numbers.specs.Bytes.{number, IsPart};
ghost use Rattle.sheet.specs.Answers.{reading, shown_head};
ghost use Rattle.shown.specs.Following.{following, following_from};
ghost use Rattle.shown.specs.Shown.{offset_of, shown_at, shown_from};

use sets::Set;
use sheet::{Head, SET_WIDTH, SETS_AT, head_of, read, set_in};

// The offset of the following set of a command and a state, by the sheet's length, and none where it is missing.
#[tactic(auto, unfolding(crate::specs::Shown::offset_of, crate::specs::Shown::is_shown))]
fn offset_of(length: usize, states: usize, command: usize, state: usize) -> Option<usize>
    ensures { result ≡ offset_of length states command state }
{
    if state < states && states <= 64 && command < 32 {
        let at = SETS_AT + SET_WIDTH * (command * states + state);
        (at + SET_WIDTH <= length).then_some(at)
    } else {
        None
    }
}

// The bytes of a following set, by a count of states that the caller has from the head, and no bytes where it is missing. Kept on bytes and numbers: the
// reading view is wanted in both forms, and `view` has the struct.
pub fn shown_at<'a>(sheet: &'a [u8], states: usize, command: usize, state: usize) -> &'a [u8]
    ensures { IsPart sheet.entry (shown_from sheet.now states command state) (shown_at sheet.now states command state) result }
{
    match offset_of(sheet.len(), states, command, state) {
        Some(at) => &sheet[at..at + SET_WIDTH],
        None => &sheet[..0],
    }
}

// Where these bytes begin in the sheet: at 0 where there are none. Kept as numbers, here and in `Span`: C gets the two of `following_span`, and a part of a sheet is
// placed so where it is empty (`following_from`).
#[tactic(auto, unfolding(crate::specs::Shown::offset_of, crate::specs::Shown::shown_from))]
fn shown_from(sheet: &[u8], states: usize, command: usize, state: usize) -> usize
    ensures { result ≡ shown_from sheet.now states command state }
{
    offset_of(sheet.len(), states, command, state).unwrap_or(0)
}

// The following set, and the empty set where it is missing.
pub fn set_at(sheet: &[u8], states: usize, command: usize, state: usize) -> Set
    ensures { result ≡ set_for (number (shown_at sheet.now states command state)) }
{
    let set = shown_at(sheet, states, command, state);
    if set.len() == SET_WIDTH {
        set_in(set, 0)
    } else {
        Set::empty()
    }
}

// The head of a sheet: one with no states and no commands where it is refused. No `Option`: the contracts of `states` and `commands`, which never fail, name the zeros.
pub fn shown_head(sheet: &[u8]) -> Head
    ensures { result ≡ shown_head (reading sheet.now) }
{
    head_of(read(sheet))
}

// How many states and commands a sheet has.
pub fn states(sheet: &[u8]) -> usize
    ensures { result ≡ (shown_head (reading sheet.now)).states }
{
    shown_head(sheet).states
}

pub fn commands(sheet: &[u8]) -> usize
    ensures { result ≡ (shown_head (reading sheet.now)).commands }
{
    shown_head(sheet).commands
}

// The bytes of the following set of a command and a state, as a part of the sheet: no bytes where either is missing or the sheet is refused.
pub fn following<'a>(sheet: &'a [u8], command: usize, state: usize) -> &'a [u8]
    ensures { IsPart sheet.entry (following_from sheet.now command state) (following sheet.now command state) result }
{
    shown_at(sheet, states(sheet), command, state)
}

// Where these bytes stand in the sheet: an offset and how many they are, both 0 where there are none.
#[derive(Clone, Copy, Debug, PartialEq, Eq)]
pub struct Span {
    pub from: usize,
    pub length: usize,
}

pub fn following_span(sheet: &[u8], command: usize, state: usize) -> Span
    ensures from_value { result.from ≡ following_from sheet.now command state }
    ensures length_value { result.length ≡ length (following sheet.now command state) }
{
    let states = states(sheet);
    let set = shown_at(sheet, states, command, state);
    Span {
        from: shown_from(sheet, states, command, state),
        length: set.len(),
    }
}
