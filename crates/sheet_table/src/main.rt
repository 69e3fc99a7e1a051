// Reads and writes sheets at the boundaries of the table of refusals, and prints a line for each: the label, and then the answer. A line of
// writing ends with KEPT where every byte that must stay is as it was.
#![tactic(auto)]

use sets::Set;
use sheet::{Head, Refusal};
use std::io;

// Sheet S of the bench examples, 55 bytes, and zeros after it.
const S: [u8; 64] = [
    1, 0, 0, 0, 50, 2, 2, 0, 0, 0, 0, 0, 0, 0, 3, 0, 0, 0, 0, 0, 0, 0, 1, 0, 0, 0, 0, 0, 0, 0, 2,
    0, 0, 0, 0, 0, 0, 0, 1, 0, 0, 0, 0, 0, 0, 0, 1, 0, 0, 0, 0, 0, 0, 0, 1, 0, 0, 0, 0, 0, 0, 0, 0,
    0,
];

// What the output holds before it is written.
const FILL: u8 = 170;

// What is written: a head with its sets in words, and the first `count` of the sets 2, 1, 1, 1 and 1, of which the one at `at` is changed
// to `set`. It goes into the first `room` bytes of the output.
#[derive(Clone, Copy)]
struct Row {
    label: &'static str,
    states: usize,
    commands: usize,
    initial: u64,
    goal: u64,
    count: usize,
    at: usize,
    set: u64,
    room: usize,
}

// Sheet S, with room to spare.
const WRITE_S: Row = Row {
    label: "write-s-room",
    states: 2,
    commands: 2,
    initial: 3,
    goal: 1,
    count: 4,
    at: 0,
    set: 2,
    room: 64,
};

fn say_reading(rt: &impl Print, label: &str, reading: Result<Head, Refusal>) -> io::Result<()> {
    match reading {
        Ok(head) => println!(rt; "{label} ACCEPTED {} {}", head.states, head.commands),
        Err(refusal) => println!(rt; "{label} REFUSED {refusal}"),
    }
}

// Reads the first `length` bytes.
fn read_first(rt: &impl Print, label: &str, bytes: &[u8], length: usize) -> io::Result<()> {
    if let Some(sheet) = bytes.get(..length) {
        say_reading(rt, label, sheet::read(sheet))?;
    }
    Ok(())
}

// S with the byte at `at` changed, of which the first `length` bytes are read.
fn try_read(rt: &impl Print, label: &str, length: usize, at: usize, byte: u8) -> io::Result<()> {
    let mut bytes = S;
    if let Some(place) = bytes.get_mut(at) {
        *place = byte;
    }
    read_first(rt, label, &bytes, length)
}

// How many bytes the first `length` bytes of S show for a command and a state, and the set that they stand for.
fn try_show(
    rt: &impl Print,
    label: &str,
    length: usize,
    command: usize,
    state: usize,
) -> io::Result<()> {
    if let Some(sheet) = S.get(..length) {
        let shown = shown::following(sheet, command, state);
        let set = shown::set_at(sheet, shown::states(sheet), command, state);
        println!(rt; "{label} SHOWN {} {}", shown.len(), u64::from(set))?;
    }
    Ok(())
}

// Prints what writing answered, and whether each byte of the output that was not written holds what it held before.
fn say_writing(
    rt: &impl Print,
    label: &str,
    writing: Result<usize, Refusal>,
    out: &[u8],
) -> io::Result<()> {
    match writing {
        Ok(length) => print!(rt; "{label} WRITTEN {length}")?,
        Err(refusal) => print!(rt; "{label} REFUSED {refusal}")?,
    }
    let written = writing.unwrap_or(0);
    let kept = out.iter().skip(written).all(|byte| *byte == FILL);
    println!(rt; " {}", if kept { "KEPT" } else { "TOUCHED" })
}

// Writes a sheet into the first `room` bytes of the output.
fn write_first(
    rt: &impl Print,
    label: &str,
    head: Head,
    given: &[u64],
    out: &mut [u8],
    room: usize,
) -> io::Result<()> {
    if let Some(lent) = out.get_mut(..room) {
        let writing = writer::write(head, given, lent);
        say_writing(rt, label, writing, out)?;
    }
    Ok(())
}

fn try_write(rt: &impl Print, row: Row) -> io::Result<()> {
    let head = Head {
        states: row.states,
        commands: row.commands,
        initial: Set::from(row.initial),
        goal: Set::from(row.goal),
    };
    let mut sets = [2, 1, 1, 1, 1];
    if let Some(place) = sets.get_mut(row.at) {
        *place = row.set;
    }
    let mut out = [FILL; 64];
    if let Some(given) = sets.get(..row.count) {
        write_first(rt, row.label, head, given, &mut out, row.room)?;
    }
    Ok(())
}

// A sheet each of whose sets has one state alone. It is read back.
fn try_large(
    rt: &impl Print,
    label: &str,
    states: usize,
    commands: usize,
    state: usize,
    room: usize,
) -> io::Result<()> {
    let set = Set::single(state);
    let head = Head {
        states,
        commands,
        initial: set,
        goal: set,
    };
    let sets = [u64::from(set); 2048];
    let mut out = [FILL; 16408];
    if let Some(given) = sets.get(..states.saturating_mul(commands)) {
        write_first(rt, label, head, given, &mut out, room)?;
    }
    read_first(rt, label, &out, room)
}

fn read_lengths(rt: &impl Print) -> io::Result<()> {
    for (label, length, at, byte) in [
        ("version-and-length", 54, 0, 2),
        ("second-set-4", 55, 38, 4),
        ("no-bytes", 0, 0, 1),
        ("four-bytes", 4, 0, 1),
        ("five-bytes", 5, 0, 1),
        ("stated-17", 22, 4, 17),
        ("stated-18", 23, 4, 18),
        ("one-byte-few", 54, 0, 1),
        ("one-byte-many", 56, 0, 1),
        ("stated-one-few", 55, 4, 49),
        ("stated-one-many", 55, 4, 51),
        ("both-one-few", 54, 4, 49),
        ("both-one-many", 56, 4, 51),
    ] {
        try_read(rt, label, length, at, byte)?;
    }
    say_reading(rt, "stated-most", sheet::read(&[1, 255, 255, 255, 255]))
}

fn read_counts(rt: &impl Print) -> io::Result<()> {
    for (label, at, byte) in [
        ("sheet-s", 0, 1),
        ("version-0", 0, 0),
        ("states-0", 5, 0),
        ("states-1", 5, 1),
        ("states-64", 5, 64),
        ("states-65", 5, 65),
        ("states-255", 5, 255),
        ("commands-0", 6, 0),
        ("commands-1", 6, 1),
        ("commands-32", 6, 32),
        ("commands-33", 6, 33),
    ] {
        try_read(rt, label, 55, at, byte)?;
    }
    Ok(())
}

fn read_sets(rt: &impl Print) -> io::Result<()> {
    for (label, at, byte) in [
        ("initial-0", 14, 0),
        ("initial-4", 14, 4),
        ("initial-top", 7, 128),
        ("goal-0", 22, 0),
        ("goal-4", 22, 4),
        ("first-set-4", 30, 4),
        ("last-set-4", 54, 4),
    ] {
        try_read(rt, label, 55, at, byte)?;
    }
    Ok(())
}

fn write_rooms(rt: &impl Print) -> io::Result<()> {
    for (label, room) in [
        ("write-s", 55),
        ("write-s-room", 64),
        ("write-one-short", 54),
        ("write-no-room", 0),
    ] {
        try_write(
            rt,
            Row {
                label,
                room,
                ..WRITE_S
            },
        )?;
    }
    Ok(())
}

fn write_counts(rt: &impl Print) -> io::Result<()> {
    for (label, states, commands) in [
        ("write-states-0", 0, 2),
        ("write-states-65", 65, 33),
        ("write-states-most", usize::MAX, 2),
        ("write-commands-0", 2, 0),
        ("write-commands-33", 2, 33),
        ("write-commands-most", 2, usize::MAX),
    ] {
        try_write(
            rt,
            Row {
                label,
                states,
                commands,
                ..WRITE_S
            },
        )?;
    }
    Ok(())
}

fn write_sets(rt: &impl Print) -> io::Result<()> {
    for (label, initial, goal, count, at, set, room) in [
        ("write-sets-3", 0, 1, 3, 0, 2, 64),
        ("write-sets-5", 3, 1, 5, 0, 2, 64),
        ("write-initial-0", 0, 4, 4, 0, 2, 64),
        ("write-initial-4", 4, 1, 4, 0, 2, 64),
        ("write-goal-0", 3, 0, 4, 0, 2, 64),
        ("write-goal-4", 3, 4, 4, 0, 4, 64),
        ("write-first-set-4", 3, 1, 4, 0, 4, 54),
        ("write-last-set-4", 3, 1, 4, 3, 4, 64),
    ] {
        try_write(
            rt,
            Row {
                label,
                initial,
                goal,
                count,
                at,
                set,
                room,
                ..WRITE_S
            },
        )?;
    }
    Ok(())
}

fn largest(rt: &impl Print) -> io::Result<()> {
    for (label, states, commands, state, room) in [
        ("one-by-one", 1, 1, 0, 31),
        ("one-by-32", 1, 32, 0, 279),
        ("64-by-one", 64, 1, 63, 535),
        ("largest", 64, 32, 63, 16407),
        ("largest-short", 64, 32, 63, 16406),
        ("63-by-32", 63, 32, 63, 16151),
    ] {
        try_large(rt, label, states, commands, state, room)?;
    }
    Ok(())
}

fn show_sets(rt: &impl Print) -> io::Result<()> {
    for (label, length, command, state) in [
        ("show-0-0", 55, 0, 0),
        ("show-0-1", 55, 0, 1),
        ("show-1-1", 55, 1, 1),
        ("show-2-0", 55, 2, 0),
        ("show-0-2", 55, 0, 2),
        ("show-most", 55, usize::MAX, usize::MAX),
        ("show-refused", 54, 0, 0),
    ] {
        try_show(rt, label, length, command, state)?;
    }
    Ok(())
}

fn main(rt: HostRuntime) -> io::Result<()> {
    read_lengths(&rt)?;
    read_counts(&rt)?;
    read_sets(&rt)?;
    write_rooms(&rt)?;
    write_counts(&rt)?;
    write_sets(&rt)?;
    largest(&rt)?;
    show_sets(&rt)
}
