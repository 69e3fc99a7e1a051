// The functions that `plugin_c` hands to C and Rust. Each calls a function of the libraries, takes its answer apart, and stores the answer's numbers in an array that
// the caller lends. Nothing is asked of what a caller's buffers hold: bad input gets a refusal.
#![tactic(auto)]

ghost use Rattle.std.specs.Prelude.{◌≡◌, length};
ghost use Rattle.sheet.specs.Sheet.{sheet_with};
ghost use Rattle.sheet.specs.Refusals.{number_of};
ghost use Rattle.sheet.specs.Answers.{reading};
ghost use Rattle.writer.specs.Written.{writing, written};
ghost use Rattle.judge.specs.Verdicts.{values_of, choice_number, ChoiceOf};
ghost use Rattle.sheet.specs.Answers.{values_of as reading_numbers};
ghost use Rattle.writer.specs.Written.{values_of as writing_numbers};
ghost use Rattle.plugin.specs.Boundary.{following_numbers, judged_numbers, search_numbers, JudgedInto, SearchedInto, SearchedHereInto};

use judge::{Judged, Which};
use search::{Answer, Verdict};
use sets::Set;
use sheet::{Head, Refusal};
use store::Node;

// The numbers of an answer. These four stay arrays of numbers: C takes no enum.
fn read_numbers(reading: Result<Head, Refusal>) -> [u64; 6]
    ensures { result ≡ reading_numbers reading }
{
    match reading {
        Ok(head) => {
            let initial = u64::from(head.initial);
            let goal = u64::from(head.goal);
            [
                0,
                0,
                head.states as u64,
                head.commands as u64,
                initial,
                goal,
            ]
        }
        Err(refusal) => [number(refusal), refusal.place as u64, 0, 0, 0, 0],
    }
}

fn write_numbers(writing: Result<usize, Refusal>) -> [u64; 3]
    ensures { result ≡ writing_numbers writing }
{
    match writing {
        Ok(bytes) => [0, 0, bytes as u64],
        Err(refusal) => [number(refusal), refusal.place as u64, 0],
    }
}

fn judged_numbers(judged: Judged) -> [u64; 4]
    ensures { result ≡ judged_numbers (values_of judged) }
{
    let set = u64::from(judged.set);
    let left = u64::from(judged.left);
    match judged.verdict {
        Ok(()) => [0, 0, set, left],
        Err(refusal) => [number(refusal), refusal.place as u64, set, left],
    }
}

// The number of a refusal in the table.
fn number(refusal: Refusal) -> u64
    ensures { result ≡ number_of refusal.reason }
{
    u64::from(refusal.reason.number())
}

// The number of a choice: 1 the first plan, 2 the second, 0 neither.
fn number_of_choice(choice: Option<Which>) -> u8
    ensures { result ≡ choice_number choice }
{
    match choice {
        None => 0,
        Some(Which::First) => 1,
        Some(Which::Second) => 2,
    }
}

fn search_numbers(answer: Answer) -> [u64; 4]
    ensures { result ≡ search_numbers answer }
{
    let count = answer.count as u64;
    let length = answer.length as u64;
    match answer.verdict {
        Verdict::Plan => [0, 0, count, length],
        Verdict::NoPlan => [255, 0, count, length],
        Verdict::Refused(refusal) => [number(refusal), refusal.place as u64, count, length],
    }
}

// Reads a sheet: number (0 for accepted), place, states, commands, initial set, goal set.
pub fn potuchlan_read(sheet: &[u8], answer: &mut [u64; 6])
    ensures { answer.new ≡ reading_numbers (reading sheet.now) }
{
    *answer = read_numbers(sheet::read(sheet));
}

// Writes a sheet: number (0 for written), place, bytes written.
pub fn potuchlan_write(
    states: usize,
    commands: usize,
    initial: u64,
    goal: u64,
    given: &[u64],
    out: &mut [u8],
    answer: &mut [u64; 3],
)
    ensures answer_after { answer.new ≡ writing_numbers (writing (sheet_with states commands initial goal given.now) (length out.old)) }
    ensures out_after { out.new ≡ written (sheet_with states commands initial goal given.now) out.old }
{
    let head = Head {
        states,
        commands,
        initial: Set::from(initial),
        goal: Set::from(goal),
    };
    *answer = write_numbers(writer::write(head, given, out));
}

// Where the bytes of a following set stand in the sheet: offset and length, both 0 where the command or the state is missing or the sheet is refused.
pub fn potuchlan_following(sheet: &[u8], command: usize, state: usize, answer: &mut [u64; 2])
    ensures { answer.new ≡ following_numbers sheet.now command state }
{
    let span = shown::following_span(sheet, command, state);
    *answer = [span.from as u64, span.length as u64];
}

// Judges a plan: number (0 for good), place, set, states still possible.
pub fn potuchlan_judge(sheet: &[u8], plan: &[u8], answer: &mut [u64; 4])
    ensures { JudgedInto sheet.now plan.now answer.new }
{
    *answer = judged_numbers(judge::judge(sheet, plan));
}

// Which of two plans is the better: 1 the first, 2 the second, 0 neither. Kept as a number, like all answers here: C takes it.
pub fn potuchlan_better(sheet: &[u8], first: &[u8], second: &[u8]) -> u8
    ensures { ChoiceOf sheet.now first.now second.now result }
{
    number_of_choice(judge::choice(sheet, first, second))
}

// Searches for the shortest plan over a store that is lent: number (0 for a plan, 255 for no plan), place, count, length.
pub fn potuchlan_search(sheet: &[u8], store: &mut [Node], plan: &mut [u8], answer: &mut [u64; 4])
    ensures { SearchedInto sheet.now store.old store.new plan.old plan.new answer.new }
{
    *answer = search_numbers(search::search(sheet, store, plan));
}

// The same over a store of 4,096 places that the caller does not see.
pub fn potuchlan_search_here(sheet: &[u8], plan: &mut [u8], answer: &mut [u64; 4])
    ensures { SearchedHereInto 4096 sheet.now plan.old plan.new answer.new }
{
    *answer = search_numbers(search::search_here(sheet, plan));
}
