// Prints lines of every kind, with short and long numbers and plans, to be compared with what they should be.
#![tactic(auto)]

use line::{Line, Short};
use std::io;

// Forty commands of two and three digits.
const FORTY: [u8; 40] = [
    10, 19, 20, 29, 30, 39, 40, 49, 50, 59, 60, 69, 70, 79, 80, 89, 90, 99, 100, 101, 109, 110,
    111, 119, 120, 128, 150, 199, 200, 201, 209, 210, 219, 220, 239, 240, 249, 250, 254, 255,
];

// A line at the start of a buffer that is long enough for each line here.
fn print(rt: &impl Print, line: Line, commands: &[u8]) -> io::Result<()> {
    let mut buffer = [0u8; 256];
    match line::put(line, commands, &mut buffer) {
        Ok(end) => rt.write_all(&buffer[..end]),
        Err(_) => Err(io::Error::other("the line is longer than the buffer")),
    }
}

// Plans of no command, of one and of forty, and the commands left out.
fn print_plans(rt: &impl Print) -> io::Result<()> {
    let plans: [(usize, usize, &[u8]); 4] = [
        (1, 0, b""),
        (2, 1, b"\x01"),
        (4096, 40, &FORTY),
        (4096, 40, b""),
    ];
    for (count, length, commands) in plans {
        print(rt, Line::Plan { count, length }, commands)?;
    }
    Ok(())
}

// The other lines, with the least and the largest numbers.
fn print_others(rt: &impl Print) -> io::Result<()> {
    let lines = [
        Line::None { count: 0 },
        Line::None { count: 9 },
        Line::None { count: 10 },
        Line::Room { count: 255 },
        Line::Room { count: 4096 },
        Line::Room { count: 65536 },
        Line::Long {
            count: 4096,
            length: 65536,
        },
        Line::Long {
            count: usize::MAX,
            length: usize::MAX,
        },
        Line::Bad {
            refusal: 1,
            place: 0,
        },
        Line::Bad {
            refusal: 9,
            place: 16407,
        },
        Line::Bad {
            refusal: 255,
            place: usize::MAX,
        },
    ];
    for line in lines {
        print(rt, line, b"")?;
    }
    Ok(())
}

// The line ROOM 10 0, put at a place of a buffer of 16 dots: the whole buffer, and the answer.
fn print_among_dots(rt: &impl Print, at: usize) -> io::Result<()> {
    let mut dots = [b'.'; 16];
    let printed = line::put_at(Line::Room { count: 10 }, b"", &mut dots, at);
    rt.write_all(&dots)?;
    match printed {
        Ok(end) => println!(rt; " ends at {end}"),
        Err(Short { needed }) => println!(rt; " needs {needed}"),
    }
}

fn main(rt: HostRuntime) -> io::Result<()> {
    print_plans(&rt)?;
    print_others(&rt)?;
    for at in [0, 6, 7, usize::MAX] {
        print_among_dots(&rt, at)?;
    }
    Ok(())
}
