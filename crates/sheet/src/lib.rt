// Sheets: what a scanner's states, commands and following sets are, as bytes. Reading gives the head, or a refusal by the table.
#![tactic(auto)]

ghost use Rattle.std.specs.Prelude.{◌≡◌, ◌||◌, ℕ, map, ◌+◌, ◌*◌, ◌^◌, ◌≤◌, ◌<◌, eqb, length, get_or};
ghost use Rattle.sets.specs.Words.{set_of, set_for};
ghost use Rattle.numbers.specs.Bytes.{part, number_at, AreBytes};
ghost use Rattle.sheet.specs.Sheet.{sets_at, set_width, from, set_in, sheet_in};
ghost use Rattle.sheet.specs.Refusals.{missing, outside, uneven_by, head_rows, set_rows, sheet_rows, verdict, check, number_of, refusal};
ghost use Rattle.sheet.specs.EachSet.{SetsChecked};
ghost use Rattle.sheet.specs.Answers.{head_of, shown_head, ReadAs};

use numbers::{eight, four};
use sets::Set;
use std::error::Error;
use std::fmt;

// Where the parts of a sheet stand, and how many bytes a set has.
pub const STATED_AT: usize = 1;

const COUNTED_AT: usize = 5;

pub const STATES_AT: usize = 5;

pub const COMMANDS_AT: usize = 6;

pub const INITIAL_AT: usize = 7;

pub const GOAL_AT: usize = 15;

pub const SETS_AT: usize = 23;

pub const SET_WIDTH: usize = 8;

pub const SHORTEST: usize = 18;

// What a sheet says before its following sets.
#[derive(Clone, Copy, Debug, PartialEq, Eq)]
pub struct Head {
    pub states: usize,
    pub commands: usize,
    pub initial: Set,
    pub goal: Set,
}

// Why a sheet, a plan or a search is refused: a row of the table of refusals each, in its order.
#[derive(Clone, Copy, Debug, PartialEq, Eq)]
pub enum Reason {
    TooShort = 1,
    Version = 2,
    Length = 3,
    Counts = 4,
    Uneven = 5,
    Initial = 6,
    Goal = 7,
    Following = 8,
    Output = 9,
    NoCommand = 10,
    NotSendable = 11,
    OutsideGoal = 12,
    NoRoom = 13,
    LongPlan = 14,
}

impl Reason {
    // Its number in the table.
    pub fn number(self) -> u8
        ensures { result ≡ number_of self }
    {
        self as u8
    }

    // The refusal for this reason, with its place.
    pub fn at(self, place: usize) -> Refusal
        ensures { result ≡ refusal self place }
    {
        Refusal {
            reason: self,
            place,
        }
    }
}

// A refusal of the table, with its place.
#[derive(Clone, Copy, Debug, PartialEq, Eq)]
pub struct Refusal {
    pub reason: Reason,
    pub place: usize,
}

// Its number and its place, with a blank between them.
impl fmt::Display for Refusal {
    ghost use Rattle.std.specs.Prelude.{Some};
    ghost use Rattle.sheet.specs.Text.{refusal_text};

    ghost output = { λ f. Some (refusal_text f) };

    fn fmt<W: fmt::Write>(&self, f: &mut fmt::Formatter<W>) -> fmt::Result {
        write!(f, "{} {}", self.reason.number(), self.place)
    }
}

impl Error for Refusal {}

// What is said of the number of following sets: the stated length in reading, and in writing how many are given.
#[derive(Clone, Copy, Debug, PartialEq, Eq)]
pub enum Counted {
    Stated(usize),
    Given(usize),
}

// The set whose bytes stand at `at`.
pub fn set_in(bytes: &[u8], at: usize) -> Set
    requires { at + set_width ≤ length bytes.now }
    ensures value { result ≡ set_for (number_at at set_width bytes.now) }
    ensures are_bytes { AreBytes (part at set_width bytes.now) }
{
    Set::from(eight(bytes, at))
}

// The set at index `i` of those that are given to be written. They are given in words, as C lends them.
pub fn given_set(given: &[u64], i: usize) -> Set
    requires { i < length given.now }
    ensures { result ≡ set_for (get_or given.now i 0) }
{
    Set::from(given[i])
}

// Does the set name a state at or above the state count?
fn names_missing(states: usize, set: Set) -> bool
    ensures { result ≡ missing states (set_of set) }
{
    !set.within(states)
}

fn is_outside(least: usize, most: usize, n: usize) -> bool
    ensures { result ≡ outside least most n }
{
    n < least || most < n
}

// Is the set empty, or does it name a missing state?
fn no_start(states: usize, set: Set) -> bool
    ensures { result ≡ (eqb (set_of set) 0 || missing states (set_of set)) }
{
    set.is_empty() || names_missing(states, set)
}

// Is the number of following sets another than the one that is said?
fn is_uneven(counted: Counted, sets: usize) -> bool
    requires { sets ≤ 2048 }
    ensures { result ≡ uneven_by counted sets }
{
    match counted {
        Counted::Stated(length) => length != SHORTEST + SET_WIDTH * sets,
        Counted::Given(number) => number != sets,
    }
}

// Rows 4 to 7. The product of the counts is formed once both are in range.
pub fn check_head(counted: Counted, head: Head) -> Result<(), Refusal>
    ensures { result ≡ check (head_rows counted head.states head.commands (set_of head.initial) (set_of head.goal)) }
{
    let states = head.states;
    if is_outside(1, 64, states) {
        return Err(Reason::Counts.at(STATES_AT));
    }
    if is_outside(1, 32, head.commands) {
        return Err(Reason::Counts.at(COMMANDS_AT));
    }
    if is_uneven(counted, head.commands * states) {
        return Err(Reason::Uneven.at(STATED_AT));
    }
    if no_start(states, head.initial) {
        return Err(Reason::Initial.at(INITIAL_AT));
    }
    if names_missing(states, head.goal) {
        return Err(Reason::Goal.at(GOAL_AT));
    }
    Ok(())
}

// Row 8, over so many following sets, each taken by its index.
fn check_sets<F: Fn(usize) -> Set>(states: usize, count: usize, set_at: F) -> Result<(), Refusal>
    requires count_bound { count < 2 ^ 60 }
    requires callable { (i : ℕ) → i < count → F.pre set_at i }
    ensures { SetsChecked states count (F.post set_at) result }
{
    for i in 0..count {
        if names_missing(states, set_at(i)) {
            return Err(Reason::Following.at(SETS_AT + SET_WIDTH * i));
        }
    }
    Ok(())
}

// Row 8, over the following sets of a sheet's bytes.
fn check_following(sheet: &[u8], states: usize, count: usize) -> Result<(), Refusal>
    requires { sets_at + set_width * count ≤ length sheet.now }
    ensures { result ≡ check (set_rows states sets_at (map (set_in sheet.now) (from 0 count))) }
{
    check_sets(states, count, |i| set_in(sheet, SETS_AT + SET_WIDTH * i))
}

// Row 8, over the following sets that are given.
pub fn check_given(states: usize, given: &[u64]) -> Result<(), Refusal>
    ensures { result ≡ check (set_rows states sets_at given.now) }
{
    check_sets(states, given.len(), |i| given_set(given, i))
}

// The head that a sheet's bytes hold.
fn head_in(sheet: &[u8]) -> Head
    requires { sets_at ≤ length sheet.now }
    ensures { result ≡ head_of (sheet_in sheet.now) }
{
    Head {
        states: usize::from(sheet[STATES_AT]),
        commands: usize::from(sheet[COMMANDS_AT]),
        initial: set_in(sheet, INITIAL_AT),
        goal: set_in(sheet, GOAL_AT),
    }
}

// Rows 4 to 8 of a sheet whose stated length is right.
fn read_stated(sheet: &[u8], stated: usize) -> Result<Head, Refusal>
    requires sheet_len { length sheet.now ≡ 5 + stated }
    requires le_stated { 18 ≤ stated }
    ensures { result ≡ verdict Err (Ok (head_of (sheet_in sheet.now))) (sheet_rows (Counted.Stated stated) (sheet_in sheet.now)) }
{
    let head = head_in(sheet);
    check_head(Counted::Stated(stated), head)?;
    check_following(sheet, head.states, head.commands * head.states)?;
    Ok(head)
}

// Reads a sheet: its head, or the refusal by the table.
pub fn read(sheet: &[u8]) -> Result<Head, Refusal>
    ensures { ReadAs sheet.now result }
{
    let length = sheet.len();
    if length < COUNTED_AT {
        return Err(Reason::TooShort.at(length));
    }
    if sheet[0] != 1 {
        return Err(Reason::Version.at(0));
    }
    let stated = four(sheet, STATED_AT) as usize;
    if COUNTED_AT + stated != length {
        return Err(Reason::Length.at(STATED_AT));
    }
    if stated < SHORTEST {
        return Err(Reason::Length.at(STATED_AT));
    }
    read_stated(sheet, stated)
}

// The head of a reading: one with no states and no commands where it is a refusal.
pub fn head_of(reading: Result<Head, Refusal>) -> Head
    ensures { result ≡ shown_head reading }
{
    reading.unwrap_or(Head {
        states: 0,
        commands: 0,
        initial: Set::empty(),
        goal: Set::empty(),
    })
}
