// Judges plans and picks the better of two, on the sheets of the scope and on the room of document 001, and prints a line for each: the label,
// and then the verdict with its number and place, the set, and how many states are still possible.
#![tactic(auto)]

use sets::Set;
use sheet::{Head, Refusal};
use std::io;

// The room of 4 by 4 places of document 001: place (x, y) is state 4 * y + x, (1, 1) is a hole and (2, 2) is slippery. The commands are west,
// east, north and south; one that may end in the hole is impossible.
const ROOM: [u64; 64] = [
    1, 1, 2, 4, 16, 0, 0, 64, 256, 256, 0, 1024, 4096, 4096, 8192, 16384, 2, 4, 8, 8, 0, 0, 128,
    128, 512, 1024, 34944, 2048, 8192, 16384, 32768, 32768, 1, 2, 4, 8, 1, 0, 4, 8, 16, 0, 0, 128,
    256, 512, 1024, 2048, 16, 0, 64, 128, 256, 0, 1024, 2048, 4096, 8192, 57344, 32768, 4096, 8192,
    16384, 32768,
];

// A plan for a sheet, after the label of its line.
type Row<'a> = (&'a str, &'a [u8], &'a [u8]);

// The verdict with its number and place. A good plan has the number 0, and no place.
fn say_verdict(rt: &impl Print, verdict: Result<(), Refusal>) -> io::Result<()> {
    match verdict {
        Ok(()) => print!(rt; " GOOD 0"),
        Err(refusal) => print!(rt; " REFUSED {refusal}"),
    }
}

// Judges a plan and prints the answer.
fn say(rt: &impl Print, label: &str, sheet: &[u8], plan: &[u8]) -> io::Result<()> {
    let judged = judge::judge(sheet, plan);
    print!(rt; "{label}")?;
    say_verdict(rt, judged.verdict)?;
    println!(rt; " {} {}", u64::from(judged.set), judged.left)
}

fn say_all(rt: &impl Print, rows: &[Row]) -> io::Result<()> {
    for (label, sheet, plan) in rows {
        say(rt, label, sheet, plan)?;
    }
    Ok(())
}

// Prints the better of two plans: how long it is, and its first command, or 255 where it has none: what is printed is a number.
fn say_better(
    rt: &impl Print,
    label: &str,
    sheet: &[u8],
    first: &[u8],
    second: &[u8],
) -> io::Result<()> {
    let plan = judge::better(sheet, first, second);
    let command = plan.first().copied().unwrap_or(255);
    println!(rt; "{label} BETTER {} {command}", plan.len())
}

// The bytes of a sheet whose following sets are given in words. `search_table` has its own for two states: a program shares with another what a library has, and no
// library makes sheets for tests alone.
fn sheet<const BYTES: usize, const SETS: usize>(
    states: usize,
    initial: u64,
    goal: u64,
    sets: [u64; SETS],
) -> [u8; BYTES] {
    let head = Head {
        states,
        commands: SETS.checked_div(states).unwrap_or(0),
        initial: Set::from(initial),
        goal: Set::from(goal),
    };
    let mut out = [0; BYTES];
    let _ = writer::write(head, &sets, &mut out);
    out
}

// One of two states and two commands.
fn small(initial: u64, goal: u64, sets: [u64; 4]) -> [u8; 55] {
    sheet(2, initial, goal, sets)
}

// Sheet S: command 0 swaps the states, command 1 leads to 0 from both.
fn sheet_s(initial: u64, goal: u64) -> [u8; 55] {
    small(initial, goal, [2, 1, 1, 1])
}

// S with command 1 impossible in state 1.
fn partial() -> [u8; 55] {
    small(3, 1, [2, 1, 1, 0])
}

fn room(initial: u64) -> [u8; 535] {
    sheet(16, initial, 2176, ROOM)
}

// The scope's rows.
fn scope_rows(rt: &impl Print) -> io::Result<()> {
    let s = sheet_s(3, 1);
    say_all(
        rt,
        &[
            ("plan-1", &s, &[1]),
            ("empty-plan", &s, &[]),
            ("1-then-7", &s, &[1, 7]),
            ("impossible-in-1", &partial(), &[1]),
            ("empty-good", &sheet_s(3, 3), &[]),
        ],
    )
}

// The students' errors.
fn error_rows(rt: &impl Print) -> io::Result<()> {
    let s = sheet_s(3, 1);
    let p = partial();
    let drift = small(1, 2, [3, 2, 0, 0]);
    say_all(
        rt,
        &[
            ("on-the-way", &s, &[1, 0]),
            ("some-outcome", &drift, &[0]),
            ("blocked-later", &p, &[0, 0, 1]),
            ("missing-before-blocked", &p, &[1, 7]),
        ],
    )
}

// Commands, goals and sheets at the edge.
fn edge_rows(rt: &impl Print) -> io::Result<()> {
    let s = sheet_s(3, 1);
    say_all(
        rt,
        &[
            ("command-at-count", &s, &[2]),
            ("command-255", &s, &[0, 255]),
            ("empty-goal", &sheet_s(3, 0), &[1]),
            ("one-byte-few", &s[..54], &[1]),
            ("no-bytes", &[], &[1]),
        ],
    )
}

fn long_rows(rt: &impl Print) -> io::Result<()> {
    let wide = sheet_s(3, 3);
    let many = [0; 10000];
    let mut bad = many;
    bad[9999] = 2;
    say_all(
        rt,
        &[
            ("255-commands", &wide, &[0; 255]),
            ("10000-commands", &wide, &many),
            ("10000-last-missing", &wide, &bad),
        ],
    )
}

// The running example of document 001: its plans of Examples 2 and 3.
fn room_rows(rt: &impl Print) -> io::Result<()> {
    let both = room(272);
    let upper = room(16);
    let lower = room(256);
    say_all(
        rt,
        &[
            ("example-3", &both, &[3, 1, 1, 1, 3, 2]),
            ("example-2-from-0-1", &upper, &[2, 1, 1, 1, 3]),
            ("example-2-from-0-2", &lower, &[2, 1, 1, 1, 3]),
            ("slippery", &lower, &[1, 1, 1, 3]),
        ],
    )
}

fn better_rows(rt: &impl Print) -> io::Result<()> {
    let s = sheet_s(3, 1);
    let alike = small(1, 2, [2, 2, 2, 2]);
    let rows: [(&str, &[u8], &[u8], &[u8]); 7] = [
        ("first-shorter", &s, &[1], &[0, 1]),
        ("second-shorter", &s, &[0, 1], &[1]),
        ("tie", &alike, &[1], &[0]),
        ("only-second", &s, &[0], &[0, 1]),
        ("only-first", &s, &[1, 1], &[0]),
        ("neither", &s, &[0], &[0, 0]),
        ("refused-sheet", &[1, 0], &[1], &[1]),
    ];
    for (label, sheet, first, second) in rows {
        say_better(rt, label, sheet, first, second)?;
    }
    Ok(())
}

fn main(rt: HostRuntime) -> io::Result<()> {
    scope_rows(&rt)?;
    error_rows(&rt)?;
    edge_rows(&rt)?;
    long_rows(&rt)?;
    room_rows(&rt)?;
    better_rows(&rt)
}
