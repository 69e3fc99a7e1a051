// The archive that C and Rust link: each function is the one of `plugin` under the same name, with the same clauses. Kept beside it: C links a static library, which
// no crate can name, and the edits and theorems need a crate that can be named.
#![tactic(auto)]

ghost use Rattle.std.specs.Prelude.{◌≡◌, length};
ghost use Rattle.sheet.specs.Sheet.{sheet_with};
ghost use Rattle.sheet.specs.Answers.{reading};
ghost use Rattle.writer.specs.Written.{writing, written};
ghost use Rattle.judge.specs.Verdicts.{ChoiceOf};
ghost use Rattle.sheet.specs.Answers.{values_of as reading_numbers};
ghost use Rattle.writer.specs.Written.{values_of as writing_numbers};
ghost use Rattle.plugin.specs.Boundary.{following_numbers, JudgedInto, SearchedInto, SearchedHereInto};

use store::Node;

// Reads a sheet: number (0 for accepted), place, states, commands, initial set, goal set.
#[unsafe(no_mangle)]
pub extern "C" fn potuchlan_read(sheet: &[u8], answer: &mut [u64; 6])
    ensures { answer.new ≡ reading_numbers (reading sheet.now) }
{
    plugin::potuchlan_read(sheet, answer);
}

// Writes a sheet: number (0 for written), place, bytes written.
#[unsafe(no_mangle)]
pub extern "C" fn potuchlan_write(
    states: usize,
    commands: usize,
    initial: u64,
    goal: u64,
    given: &[u64],
    out: &mut [u8],
    answer: &mut [u64; 3],
)
    ensures answer_after { answer.new ≡ writing_numbers (writing (sheet_with states commands initial goal given.now) (length out.old)) }
    ensures out_after { out.new ≡ written (sheet_with states commands initial goal given.now) out.old }
{
    plugin::potuchlan_write(states, commands, initial, goal, given, out, answer);
}

// Where the bytes of a following set stand in the sheet: offset and length, both 0 where the command or the state is missing or the sheet is refused.
#[unsafe(no_mangle)]
pub extern "C" fn potuchlan_following(
    sheet: &[u8],
    command: usize,
    state: usize,
    answer: &mut [u64; 2],
)
    ensures { answer.new ≡ following_numbers sheet.now command state }
{
    plugin::potuchlan_following(sheet, command, state, answer);
}

// Judges a plan: number (0 for good), place, set, states still possible.
#[unsafe(no_mangle)]
pub extern "C" fn potuchlan_judge(sheet: &[u8], plan: &[u8], answer: &mut [u64; 4])
    ensures { JudgedInto sheet.now plan.now answer.new }
{
    plugin::potuchlan_judge(sheet, plan, answer);
}

// Which of two plans is the better: 1 the first, 2 the second, 0 neither.
#[unsafe(no_mangle)]
pub extern "C" fn potuchlan_better(sheet: &[u8], first: &[u8], second: &[u8]) -> u8
    ensures { ChoiceOf sheet.now first.now second.now result }
{
    plugin::potuchlan_better(sheet, first, second)
}

// Searches for the shortest plan over a store that is lent: number (0 for a plan, 255 for no plan), place, count, length.
#[unsafe(no_mangle)]
pub extern "C" fn potuchlan_search(
    sheet: &[u8],
    store: &mut [Node],
    plan: &mut [u8],
    answer: &mut [u64; 4],
)
    ensures { SearchedInto sheet.now store.old store.new plan.old plan.new answer.new }
{
    plugin::potuchlan_search(sheet, store, plan, answer);
}

// The same over a store of 4,096 places that the caller does not see.
#[unsafe(no_mangle)]
pub extern "C" fn potuchlan_search_here(sheet: &[u8], plan: &mut [u8], answer: &mut [u64; 4])
    ensures { SearchedHereInto 4096 sheet.now plan.old plan.new answer.new }
{
    plugin::potuchlan_search_here(sheet, plan, answer);
}
