// The judge: whether a plan is good for a sheet, and why not; and the better of two plans.
#![tactic(auto)]

ghost use Rattle.std.specs.Prelude.{◌≡◌};
ghost use Rattle.meaning.specs.Answers as answers;
ghost use Rattle.meaning.specs.Answers.{Judges, judged};
ghost use Rattle.meaning.specs.Sets.{Tells};
ghost use Rattle.sets.specs.Words.{set_of};
ghost use Rattle.sheet.specs.Refusals.{number_of};
ghost use Rattle.follow.specs.Following.{domain_of};
ghost use Rattle.judge.specs.Verdicts.{values_of, choice_number, JudgedBy, GoodFor, ChoiceOf, BetterOf};
ghost use Rattle.judge.specs.Turns.{FirstMissing, WalkedTo};

use follow::Scanner;
use sets::Set;
use sheet::{Reason, Refusal};

// The verdict, the set where the walk ended, and how many states are still possible there.
#[derive(Clone, Copy, Debug, PartialEq, Eq)]
pub struct Judged {
    pub verdict: Result<(), Refusal>,
    pub set: Set,
    pub left: u32,
}

// Where a walk is blocked: at the command of this index, which is not sendable in this set.
#[derive(Clone, Copy)]
struct Blocked {
    at: usize,
    set: Set,
}

// One of two plans.
#[derive(Clone, Copy, Debug, PartialEq, Eq)]
pub enum Which {
    First,
    Second,
}

// The index of the first byte of the plan that is no command, if there is one.
fn first_missing(plan: &[u8], commands: usize) -> Option<usize>
    ensures { FirstMissing commands plan.now result }
{
    plan.iter().position(|&c| commands <= usize::from(c))
}

// Sends the plan's commands from the initial set, up to the first that is not sendable. It is not inlined, as `search::search_from` is not.
#[inline(never)]
fn walk(scanner: Scanner, plan: &[u8]) -> Result<Set, Blocked>
    ensures { WalkedTo (domain_of scanner.entry) (set_of scanner.entry.head.initial) plan.now result }
{
    let mut set = scanner.head.initial;
    for (at, &c) in plan.iter().enumerate() {
        let command = usize::from(c);
        if !scanner.sendable(command, set) {
            return Err(Blocked { at, set });
        }
        set = scanner.image(command, set);
    }
    Ok(set)
}

// The judgement for a reason of the table, with its place and its set.
fn refused(reason: Reason, place: usize, set: Set) -> Judged
    ensures set_value { result.set ≡ set }
    ensures result_value { values_of result ≡ judged (answers.refused (number_of reason)) place (set_of set) }
{
    Judged {
        verdict: Err(reason.at(place)),
        set,
        left: set.ones(),
    }
}

// The judgement of a plan for a scanner whose sheet was accepted.
fn judge_by(scanner: Scanner, plan: &[u8]) -> Judged
    ensures { Judges (domain_of scanner.entry) (set_of scanner.entry.head.initial) (set_of scanner.entry.head.goal) plan.now (values_of result) }
{
    if let Some(missing) = first_missing(plan, scanner.head.commands) {
        return refused(Reason::NoCommand, missing, Set::empty());
    }
    let set = match walk(scanner, plan) {
        Ok(set) => set,
        Err(blocked) => return refused(Reason::NotSendable, blocked.at, blocked.set),
    };
    if !set.inside(scanner.head.goal) {
        return refused(Reason::OutsideGoal, plan.len(), set);
    }
    Judged {
        verdict: Ok(()),
        set,
        left: set.ones(),
    }
}

// Judges a plan against a sheet.
pub fn judge(sheet: &[u8], plan: &[u8]) -> Judged
    ensures { JudgedBy sheet.now plan.now result }
{
    match sheet::read(sheet) {
        Ok(head) => judge_by(Scanner { head, sheet }, plan),
        Err(refusal) => Judged {
            verdict: Err(refusal),
            set: Set::empty(),
            left: 0,
        },
    }
}

// Whether a plan is good for a sheet.
fn is_good(sheet: &[u8], plan: &[u8]) -> bool
    ensures { Tells result (GoodFor sheet.now plan.now) }
{
    judge(sheet, plan).verdict.is_ok()
}

// Which of two plans is the better: the shorter good one, and the first where both are good and equally long. None where neither is good.
pub fn choice(sheet: &[u8], first: &[u8], second: &[u8]) -> Option<Which>
    ensures { ChoiceOf sheet.now first.now second.now (choice_number result) }
{
    match (is_good(sheet, first), is_good(sheet, second)) {
        (true, true) if second.len() < first.len() => Some(Which::Second),
        (true, _) => Some(Which::First),
        (false, true) => Some(Which::Second),
        (false, false) => None,
    }
}

// Of two plans the shorter good one, as the caller's own bytes; the first's empty start where neither is good.
pub fn better<'a>(sheet: &[u8], first: &'a [u8], second: &'a [u8]) -> &'a [u8]
    ensures { BetterOf sheet.now first.entry second.entry result }
{
    match choice(sheet, first, second) {
        Some(Which::First) => first,
        Some(Which::Second) => second,
        None => &first[..0],
    }
}
