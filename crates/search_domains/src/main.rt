// Searches the published test domains of document 001 that have at most 64 states, and prints a line for each: the label, the verdict, the count and
// the length of the plan, which the document's tables give.
#![tactic(auto)]

ghost use Rattle.std.specs.Prelude.{◌≤◌};

use search::{Verdict, search_here};
use sets::Set;
use sheet::Head;
use std::io;

// What the commands of a domain do.
#[derive(Clone, Copy, Debug, PartialEq, Eq)]
enum Kind {
    // A room or a cube, whose walls stop a move.
    Grid { side: u8 },
    // The bomb in the toilet.
    Bomb { packages: u8 },
    // The same with clogging, for sure or perhaps.
    Toilet { packages: u8, sure: bool },
}

// A domain by its kind, with the head of its sheet.
#[derive(Clone, Copy)]
struct Domain {
    kind: Kind,
    head: Head,
}

// The set of the first states.
fn all(states: usize) -> Set {
    (0..states).fold(Set::empty(), |set, state| set.union(Set::single(state)))
}

// Where a step in a grid leads, or None where a wall stops it. There are two commands for each axis: down and up along it.
fn grid_step(side: usize, command: usize, state: usize) -> Option<usize> {
    let stride = match command / 2 {
        0 => 1,
        1 => side,
        _ => side.checked_mul(side)?,
    };
    let at = state.checked_div(stride)?.checked_rem(side)?;
    match command % 2 {
        0 if 0 < at => state.checked_sub(stride),
        1 if at + 1 < side => state.checked_add(stride),
        _ => None,
    }
}

// State i < packages: package i holds the armed bomb; state `packages`: it is disarmed. Command i dunks package i.
fn dunked(packages: usize, command: usize, state: usize) -> usize
    ensures { state ≤ packages → result ≤ packages }
{
    if command == state { packages } else { state }
}

// A toilet that clogs: the states packages + 1 further on have it clogged. A dunk is impossible there, and clogs, for sure or perhaps; command
// `packages` flushes.
fn clog_step(packages: u8, sure: bool, command: usize, state: usize) -> Set {
    let packages = usize::from(packages);
    if command == packages {
        return Set::single(state % (packages + 1));
    }
    if packages < state {
        return Set::empty();
    }
    let after = dunked(packages, command, state);
    let clogged = Set::single(after + packages + 1);
    if sure {
        clogged
    } else {
        Set::single(after).union(clogged)
    }
}

impl Domain {
    // From anywhere in a grid to one place of it.
    fn grid(side: u8, axes: u8, goal: usize) -> Self {
        let states = usize::from(side).saturating_pow(u32::from(axes));
        Domain {
            kind: Kind::Grid { side },
            head: Head {
                states,
                commands: 2 * usize::from(axes),
                initial: all(states),
                goal: Set::single(goal),
            },
        }
    }

    fn bomb(packages: u8) -> Self {
        let last = usize::from(packages);
        Domain {
            kind: Kind::Bomb { packages },
            head: Head {
                states: last + 1,
                commands: last,
                initial: all(last),
                goal: Set::single(last),
            },
        }
    }

    fn toilet(packages: u8, sure: bool) -> Self {
        let last = usize::from(packages);
        Domain {
            kind: Kind::Toilet { packages, sure },
            head: Head {
                states: 2 * last + 2,
                commands: last + 1,
                initial: all(last),
                goal: Set::single(last).union(Set::single(2 * last + 1)),
            },
        }
    }

    // The following set of a command and a state.
    fn following(self, command: usize, state: usize) -> Set {
        match self.kind {
            Kind::Grid { side } => {
                Set::single(grid_step(usize::from(side), command, state).unwrap_or(state))
            }
            Kind::Bomb { packages } => Set::single(dunked(usize::from(packages), command, state)),
            Kind::Toilet { packages, sure } => clog_step(packages, sure, command, state),
        }
    }

    // The following set at index `j` of the table.
    fn at_index(self, j: usize) -> Set {
        let states = self.head.states;
        match (j.checked_div(states), j.checked_rem(states)) {
            (Some(command), Some(state)) => self.following(command, state),
            _ => Set::empty(),
        }
    }

    // The following sets, command by command, in words.
    fn table(self) -> [u64; 2048] {
        std::array::from_fn(|j| u64::from(self.at_index(j)))
    }

    // Writes the sheet. How many bytes it has, where it is no refused one.
    fn write(self, out: &mut [u8]) -> Option<usize> {
        let table = self.table();
        let total = self.head.states.checked_mul(self.head.commands)?;
        writer::write(self.head, table.get(..total)?, out).ok()
    }
}

// The verdict, with the number of a refusal.
fn say_verdict(rt: &impl Print, verdict: Verdict) -> io::Result<()> {
    match verdict {
        Verdict::Plan => print!(rt; " PLAN"),
        Verdict::NoPlan => print!(rt; " NONE"),
        Verdict::Refused(refusal) => print!(rt; " REFUSED {}", refusal.reason.number()),
    }
}

// Searches a domain, and prints the answer after its name and size.
fn say(rt: &impl Print, name: &str, size: u8, domain: Domain) -> io::Result<()> {
    let mut bytes = [0; 16407];
    let length = domain.write(&mut bytes);
    let mut plan = [0; 64];
    if let Some(sheet) = length.and_then(|length| bytes.get(..length)) {
        let answer = search_here(sheet, &mut plan);
        print!(rt; "{name}({size})")?;
        say_verdict(rt, answer.verdict)?;
        println!(rt; " {} {}", answer.count, answer.length)?;
    }
    Ok(())
}

// A room or a cube is named by its largest coordinate, which is one less than its side.
fn grid_rows(rt: &impl Print) -> io::Result<()> {
    for (name, side, axes, goal) in [
        ("SQUARE-corner", 4, 2, 0),
        ("SQUARE-corner", 5, 2, 0),
        ("SQUARE-corner", 6, 2, 0),
        ("SQUARE-corner", 7, 2, 0),
        ("SQUARE-corner", 8, 2, 0),
        ("SQUARE-side", 4, 2, 4),
        ("SQUARE-center", 4, 2, 5),
        ("CUBE-corner", 4, 3, 0),
    ] {
        say(rt, name, side - 1, Domain::grid(side, axes, goal))?;
    }
    Ok(())
}

fn bomb_rows(rt: &impl Print) -> io::Result<()> {
    for packages in 4..=10 {
        say(rt, "BT", packages, Domain::bomb(packages))?;
    }
    Ok(())
}

fn toilet_rows(rt: &impl Print, name: &str, sure: bool) -> io::Result<()> {
    for packages in 4..=9 {
        say(rt, name, packages, Domain::toilet(packages, sure))?;
    }
    Ok(())
}

fn main(rt: HostRuntime) -> io::Result<()> {
    grid_rows(&rt)?;
    bomb_rows(&rt)?;
    toilet_rows(&rt, "BTC", true)?;
    toilet_rows(&rt, "BTUC", false)
}
