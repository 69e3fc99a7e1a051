// The search for the shortest plan, over a store that the caller lends: the exploration fills the store, and a plan that was found is read back from it.
#![tactic(auto)]

ghost use Rattle.std.specs.Prelude.{◌≡◌};
ghost use Rattle.sets.specs.Words.{set_of};
ghost use Rattle.follow.specs.Following.{domain_of};
ghost use Rattle.explore.specs.Ready.{Ready};
ghost use Rattle.search.specs.Done.{answer, SearchDone, SheetSearched, SearchedHere};
ghost use Rattle.search.specs.Endings.{CanRead, Finished, with_plan};

use explore::{End, Ending, explore};
use follow::Scanner;
use sets::Set;
use sheet::{Reason, Refusal, read};
use store::{Node, blank, read_back};

// A plan, no plan, or a refusal.
#[derive(Clone, Copy, Debug, PartialEq, Eq)]
pub enum Verdict {
    Plan,
    NoPlan,
    Refused(Refusal),
}

// What a search answers: how many sets it found, and how long its plan is. The length stands beside the verdict: `Done` names one for every verdict, and so does C.
#[derive(Clone, Copy, Debug, PartialEq, Eq)]
pub struct Answer {
    pub verdict: Verdict,
    pub count: usize,
    pub length: usize,
}

fn answered(verdict: Verdict, count: usize, length: usize) -> Answer
    ensures { result ≡ answer verdict count length }
{
    Answer {
        verdict,
        count,
        length,
    }
}

// The answer for a plan of that length and a plan buffer of so many bytes: the plan, or refusal 14.
fn with_plan(count: usize, length: usize, bytes: usize) -> Answer
    ensures { result ≡ with_plan count length bytes }
{
    if length <= bytes {
        answered(Verdict::Plan, count, length)
    } else {
        answered(Verdict::Refused(Reason::LongPlan.at(length)), count, length)
    }
}

// The answer, with a plan that was found read back into the plan buffer.
fn finish(store: &[Node], end: End, plan: &mut [u8]) -> Answer
    requires { CanRead store.now end }
    ensures { Finished store.now end plan.old plan.new result }
{
    let count = end.count;
    match end.ending {
        Ending::Plan => {
            let length = read_back(store, count - 1, &mut *plan);
            with_plan(count, length, plan.len())
        }
        Ending::NoPlan => answered(Verdict::NoPlan, count, 0),
        Ending::NoRoom => answered(Verdict::Refused(Reason::NoRoom.at(0)), count, 0),
    }
}

// The engine: searches from any start to any goal, by the head and the bytes of a sheet, over whatever the store held. It is not inlined: behind the tests of
// reading its loops counted as seldom run, were not aligned, and took up to 1.6 times as long.
#[inline(never)]
pub fn search_from(
    scanner: Scanner,
    start: Set,
    goal: Set,
    store: &mut [Node],
    plan: &mut [u8],
) -> Answer
    requires { Ready (domain_of scanner) (set_of start) }
    ensures { SearchDone (domain_of scanner.entry) (set_of start) (set_of goal) store.old store.new plan.old plan.new result }
{
    let end = explore(scanner, start, goal, &mut *store);
    finish(&*store, end, plan)
}

// Searches for the shortest plan of a sheet. Store and plan buffer are kept apart: C lends each by itself.
pub fn search(sheet: &[u8], store: &mut [Node], plan: &mut [u8]) -> Answer
    ensures { SheetSearched sheet.now store.old store.new plan.old plan.new result }
{
    match read(sheet) {
        Ok(head) => {
            let scanner = Scanner { head, sheet };
            search_from(scanner, head.initial, head.goal, store, plan)
        }
        Err(refusal) => answered(Verdict::Refused(refusal), 0, 0),
    }
}

// The same over a store of 4,096 places that it makes itself, for callers that have none.
pub fn search_here(sheet: &[u8], plan: &mut [u8]) -> Answer
    ensures { SearchedHere 4096 sheet.now plan.old plan.new result }
{
    let place = blank();
    let mut store = [place; 4096];
    search(sheet, &mut store, plan)
}
