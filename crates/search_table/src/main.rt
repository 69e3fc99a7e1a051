// Searches the sheets of the scope and prints a line for each: the label, the verdict with its number, the place, the count and the length; then the
// whole plan buffer, and then each of the six places that there are, however many were lent: set, parent and command.
#![tactic(auto)]

use search::{Answer, Verdict, search};
use sets::Set;
use sheet::Head;
use std::io;
use store::Node;

// A sheet to search, after the label of its line, and how many places of the store and bytes of the plan buffer are lent.
type Row<'a> = (&'a str, &'a [u8], usize, usize);

// The verdict with the number and the place of a refusal. A plan and no plan have the place 0.
fn say_verdict(rt: &impl Print, verdict: Verdict) -> io::Result<()> {
    match verdict {
        Verdict::Plan => print!(rt; " PLAN 0"),
        Verdict::NoPlan => print!(rt; " NONE 0"),
        Verdict::Refused(refusal) => print!(rt; " REFUSED {refusal}"),
    }
}

fn say_answer(rt: &impl Print, label: &str, answer: Answer) -> io::Result<()> {
    print!(rt; "{label}")?;
    say_verdict(rt, answer.verdict)?;
    print!(rt; " {} {},", answer.count, answer.length)
}

fn say_plan(rt: &impl Print, plan: &[u8]) -> io::Result<()> {
    for command in plan {
        print!(rt; " {command}")?;
    }
    Ok(())
}

// Prints every place of a store, and ends the line.
fn say_store(rt: &impl Print, store: &[Node]) -> io::Result<()> {
    for node in store {
        print!(rt;
            ", {} {} {}",
            u64::from(node.set),
            node.parent,
            node.command
        )?;
    }
    println!(rt)
}

// What each place of the store holds when it is lent.
fn lent() -> Node {
    Node {
        set: Set::from(7),
        parent: 7,
        command: 7,
    }
}

// Searches with the first places of a store of six, and the first bytes of a plan buffer of four.
fn say(rt: &impl Print, label: &str, sheet: &[u8], places: usize, bytes: usize) -> io::Result<()> {
    let mut store = [lent(); 6];
    let mut buffer = [9; 4];
    if let (Some(room), Some(plan)) = (store.get_mut(..places), buffer.get_mut(..bytes)) {
        let answer = search(sheet, room, plan);
        say_answer(rt, label, answer)?;
        say_plan(rt, plan)?;
        say_store(rt, &store)?;
    }
    Ok(())
}

fn say_all(rt: &impl Print, rows: &[Row]) -> io::Result<()> {
    for (label, sheet, places, bytes) in rows {
        say(rt, label, sheet, *places, *bytes)?;
    }
    Ok(())
}

// The bytes of a sheet of two states, whose SETS following sets are given in words. `judge_table` says why each has its own.
fn sheet<const BYTES: usize, const SETS: usize>(
    initial: u64,
    goal: u64,
    sets: [u64; SETS],
) -> [u8; BYTES] {
    let head = Head {
        states: 2,
        commands: SETS / 2,
        initial: Set::from(initial),
        goal: Set::from(goal),
    };
    let mut out = [0; BYTES];
    let _ = writer::write(head, &sets, &mut out);
    out
}

// Sheet S: command 0 swaps the states, command 1 leads to 0 from both.
fn sheet_s(goal: u64) -> [u8; 55] {
    sheet::<55, 4>(3, goal, [2, 1, 1, 1])
}

// The scope's rows.
fn scope_rows(rt: &impl Print) -> io::Result<()> {
    let s = sheet_s(1);
    let no_goal = sheet_s(0);
    say_all(
        rt,
        &[
            ("room-2", &s, 2, 4),
            ("room-1", &s, 1, 4),
            ("room-0", &s, 0, 4),
            ("room-2-no-buffer", &s, 2, 0),
            ("goal-3", &sheet_s(3), 4, 4),
            ("goal-0-room-3", &no_goal, 3, 4),
            ("goal-0-room-2", &no_goal, 2, 4),
        ],
    )
}

fn other_rows(rt: &impl Print) -> io::Result<()> {
    say_all(
        rt,
        &[
            ("swap-room-1", &sheet::<39, 2>(3, 1, [2, 1]), 1, 4),
            ("swap-1-to-2", &sheet::<39, 2>(1, 2, [2, 1]), 4, 4),
            ("drift", &sheet::<39, 2>(1, 2, [3, 2]), 4, 4),
            ("alike", &sheet::<55, 4>(1, 2, [2, 2, 2, 2]), 4, 4),
            ("impossible-in-1", &sheet::<55, 4>(3, 1, [2, 1, 1, 0]), 4, 4),
        ],
    )
}

// A plan of two commands at every room, and in buffers of no byte, one too few and the exact length.
fn room_rows(rt: &impl Print) -> io::Result<()> {
    let s = sheet_s(2);
    say_all(
        rt,
        &[
            ("two-commands-0", &s, 0, 4),
            ("two-commands-1", &s, 1, 4),
            ("two-commands-2", &s, 2, 4),
            ("two-commands-3", &s, 3, 4),
            ("two-commands-4", &s, 4, 4),
            ("two-commands-5", &s, 5, 4),
            ("buffer-0", &s, 5, 0),
            ("buffer-1", &s, 5, 1),
            ("buffer-2", &s, 5, 2),
        ],
    )
}

// The first bytes of a sheet.
fn short_rows(rt: &impl Print) -> io::Result<()> {
    let s = sheet_s(1);
    for (label, length) in [("no-bytes", 0), ("one-byte-few", 54)] {
        if let Some(first) = s.get(..length) {
            say(rt, label, first, 4, 4)?;
        }
    }
    Ok(())
}

// Sheets of another version, which has another length too, and with a missing state in a following set.
fn changed_rows(rt: &impl Print) -> io::Result<()> {
    let mut version = sheet_s(1);
    version[0] = 2;
    version[4] = 7;
    let mut missing = sheet_s(1);
    missing[38] = 4;
    say_all(
        rt,
        &[
            ("version-2", &version, 4, 4),
            ("missing-state", &missing, 4, 4),
        ],
    )
}

fn main(rt: HostRuntime) -> io::Result<()> {
    scope_rows(&rt)?;
    other_rows(&rt)?;
    room_rows(&rt)?;
    short_rows(&rt)?;
    changed_rows(&rt)
}
