// Writing a sheet: its bytes into the start of a lent output, or a refusal by the table, which changes no byte.
#![tactic(auto)]

ghost use Rattle.std.specs.Prelude.{◌≡◌, [], ◌∷◌, ◌+◌, ◌*◌, ◌≤◌, length};
ghost use Rattle.std.proofs.lemmas.List.Edits.{sets as stored};
ghost use Rattle.sets.specs.Words.{set_of};
ghost use Rattle.numbers.specs.Bytes.{bytes_of, bytes_of_each};
ghost use Rattle.sheet.specs.Sheet.{sets_at, set_width, head_bytes};
ghost use Rattle.sheet.specs.Answers.{sheet_of};
ghost use Rattle.writer.specs.Written.{room_row, writing_by, written_by, Wrote};

use numbers::put;
use sets::Set;
use sheet::{
    COMMANDS_AT, Counted, GOAL_AT, Head, INITIAL_AT, Reason, Refusal, SET_WIDTH, SETS_AT, SHORTEST,
    STATED_AT, STATES_AT, check_given, check_head, given_set,
};

// The bytes of a set. Buffer and offset are kept apart, as in `line`.
fn put_set(out: &mut [u8], at: usize, set: Set)
    requires { at + set_width ≤ length out.old }
    ensures { out.new ≡ stored out.old at (bytes_of set_width (set_of set)) }
{
    put::<SET_WIDTH>(out, at, u64::from(set));
}

// All that comes before the following sets.
fn put_head(out: &mut [u8], head: Head)
    requires sets_at_in_bounds { sets_at ≤ length out.old }
    requires states_bound { head.commands * head.states ≤ 2048 }
    ensures { out.new ≡ stored out.old 0 (head_bytes head.states head.commands (set_of head.initial) (set_of head.goal)) }
{
    let stated = SHORTEST + SET_WIDTH * (head.commands * head.states);
    put::<1>(out, 0, 1);
    put::<4>(out, STATED_AT, stated as u64);
    put::<1>(out, STATES_AT, head.states as u64);
    put::<1>(out, COMMANDS_AT, head.commands as u64);
    put_set(out, INITIAL_AT, head.initial);
    put_set(out, GOAL_AT, head.goal);
}

// The following sets.
fn put_sets(out: &mut [u8], given: &[u64])
    requires { sets_at + set_width * length given.now ≤ length out.old }
    ensures { out.new ≡ stored out.old sets_at (bytes_of_each set_width given.now) }
{
    for i in 0..given.len() {
        put_set(out, SETS_AT + SET_WIDTH * i, given_set(given, i));
    }
}

// Row 9, and the storing of a sheet that passes the rows before.
fn put_sheet(head: Head, given: &[u64], out: &mut [u8]) -> Result<usize, Refusal>
    requires given_len { length given.now ≡ head.commands * head.states }
    requires states_bound { head.commands * head.states ≤ 2048 }
    ensures value { result ≡ writing_by (room_row (sheet_of head given.now) (length out.old) ∷ []) (sheet_of head given.now) }
    ensures out_after { out.new ≡ written_by (room_row (sheet_of head given.now) (length out.old) ∷ []) (sheet_of head given.now) out.old }
{
    let needed = SETS_AT + SET_WIDTH * given.len();
    if out.len() < needed {
        return Err(Reason::Output.at(needed));
    }
    put_head(out, head);
    put_sets(out, given);
    Ok(needed)
}

// Writes a sheet, whose following sets are given in words: how many bytes it has, or the refusal by the table, which changes no byte.
pub fn write(head: Head, given: &[u64], out: &mut [u8]) -> Result<usize, Refusal>
    ensures { Wrote (sheet_of head given.now) out.old out.new result }
{
    check_head(Counted::Given(given.len()), head)?;
    check_given(head.states, given)?;
    put_sheet(head, given, out)
}
