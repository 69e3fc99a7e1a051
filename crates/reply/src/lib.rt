// From a sheet's bytes to the line that is printed for it.
#![tactic(auto)]

ghost use Rattle.std.specs.Prelude.{◌≡◌};
ghost use Rattle.sheet.specs.Refusals.{number_of};
ghost use Rattle.reply.specs.Replies.{line_for, refusal_line, Replied};

use line::{Line, Short};
use search::{Answer, Verdict};
use sheet::{Reason, Refusal};

// How many bytes the plan buffer has, which is made here and not on a heap: the scope names the number.
const PLACES: usize = 4096;

// The line of a refusal: that of no room and that of too long a plan have words of their own.
fn refusal_line(refusal: Refusal, count: usize, length: usize) -> Line
    ensures { result ≡ refusal_line (number_of refusal.reason) refusal.place count length }
{
    match refusal.reason {
        Reason::NoRoom => Line::Room { count },
        Reason::LongPlan => Line::Long { count, length },
        reason => Line::Bad {
            refusal: reason.number(),
            place: refusal.place,
        },
    }
}

// The line of a search's answer.
fn line_for(answer: Answer) -> Line
    ensures { result ≡ line_for answer }
{
    let count = answer.count;
    let length = answer.length;
    match answer.verdict {
        Verdict::Plan => Line::Plan { count, length },
        Verdict::NoPlan => Line::None { count },
        Verdict::Refused(refusal) => refusal_line(refusal, count, length),
    }
}

// Searches a sheet and puts the line of the answer at the start of the output.
pub fn put(sheet: &[u8], out: &mut [u8]) -> Result<usize, Short>
    ensures { Replied sheet.now out.old out.new result }
{
    let mut plan = [0u8; PLACES];
    let answer = search::search_here(sheet, &mut plan);
    let written = answer.length.min(PLACES);
    line::put(line_for(answer), &plan[..written], out)
}
