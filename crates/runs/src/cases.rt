// The functions of the other crates, each called for a line.
use crate::lines::{Draft, Line, begun};
use crate::says::{say, say_answer, say_bytes, say_number, say_summary, say_value, say_values};
use exports::Export;
use reading::{Reading, blank};
use rules::{Refusal, Summary, Vehicle};
use std::io;

// What a line asks for: its first letter and its first two numbers.
#[derive(Clone, Copy)]
struct Asked {
    verb: u8,
    one: u16,
    two: u16,
}

// The edit that is asked for; where only the working is, what that answered.
fn edited(
    asked: Asked,
    car: Vehicle,
    speeds: &mut [u16],
    holds: &mut [u8],
    card: &mut [u8],
    worked: Result<Summary, Refusal>,
    was: Summary,
) -> Result<Summary, Refusal> {
    let second = usize::from(asked.one);
    let value = asked.two;
    match asked.verb {
        b'h' => edits::hold(car, speeds, holds, card, second, (value % 256) as u8, was),
        b'r' => edits::release(car, speeds, holds, card, second, was),
        b'm' => edits::mend(car, speeds, holds, card, second, value, was),
        _ => worked,
    }
}

// The trace worked, then edited, and all that is left of it.
fn screen(
    to: &impl Print,
    asked: Asked,
    car: Vehicle,
    speeds: &mut [u16],
    holds: &mut [u8],
    card: &mut [u8],
) -> io::Result<()> {
    let answer = cards::work(car, speeds, holds, card);
    let summary = summaries::summary_of(speeds, card).unwrap_or_default();
    let worked = answer.map(|_| summary);
    let now = edited(asked, car, speeds, holds, card, worked, summary);
    say_answer(to, now.map(|_| ()))?;
    say_values(to, speeds)?;
    say_bytes(to, holds)?;
    say_bytes(to, card)?;
    say_summary(to, now.unwrap_or(summary))
}

// The job written into a room, and that room.
fn save<'a>(
    to: &impl Print,
    version: u16,
    car: Vehicle,
    speeds: &'a [u16],
    holds: &'a [u8],
    room: &mut [u8],
) -> io::Result<()> {
    let written = writing::write(version, car, speeds, holds, room);
    say_answer(to, written.map(|_| ()))?;
    say_bytes(to, room)
}

// In a room of so many bytes.
fn save_in<'a>(
    to: &impl Print,
    asked: Asked,
    car: Vehicle,
    speeds: &'a [u16],
    holds: &'a [u8],
) -> io::Result<()> {
    let mut room = [7u8; 256];
    let m = usize::from(asked.two).min(256);
    save(to, asked.one, car, speeds, holds, &mut room[..m])
}

// The job read, and what is asked of it then; where it was refused, it is asked of a vehicle of zeros and a trace of no seconds.
fn of_job(to: &impl Print, asked: Asked, job: &[u8]) -> io::Result<()> {
    let mut speeds = [7u16; 24];
    let mut holds = [7u8; 24];
    let read = reading::read(job, &mut speeds, &mut holds);
    let Reading { vehicle, count, .. } = read.unwrap_or(Reading {
        version: 0,
        vehicle: blank(),
        count: 0,
    });
    let n = count.min(24);
    match asked.verb {
        b'j' => {
            say_answer(to, read.map(|_| ()))?;
            say_values(to, &speeds)?;
            say_bytes(to, &holds)
        }
        b's' => save_in(to, asked, vehicle, &speeds[..n], &holds[..n]),
        _ => {
            let mut card = [99u8; 24];
            screen(
                to,
                asked,
                vehicle,
                &mut speeds[..n],
                &mut holds[..n],
                &mut card[..n],
            )
        }
    }
}

// F1 may be negative: its sign.
fn say_sign(to: &impl Print, f1: i32) -> io::Result<()> {
    if f1 < 0 {
        say(to, b" -")
    } else if 0 < f1 {
        say(to, b" +")
    } else {
        say(to, b" 0")
    }
}

fn of_export(to: &impl Print, bytes: &[u8]) -> io::Result<()> {
    let read = exports::read_export(bytes);
    say_answer(to, read.map(|_| ()))?;
    let Export { f0, f1, f2, tm } = read.unwrap_or_default();
    say(to, b",")?;
    say_value(to, f0)?;
    say_sign(to, f1)?;
    say_value(to, f2)?;
    say_value(to, tm)
}

fn fill(to: &impl Print, asked: Asked, room: &mut [u16]) -> io::Result<()> {
    let number = u32::from(asked.one);
    if asked.verb == b'f' {
        say_answer(to, cycles::fill(number, room))?;
        return say_number(to, cycles::part_of(room, number).len() as u64);
    }
    say_answer(to, downscale::downscale(number, room))
}

// The speeds at the places that the line names.
fn say_places(to: &impl Print, line: Line, room: [u16; 2048]) -> io::Result<()> {
    say(to, b",")?;
    for i in 3..line.last.min(127) + 1 {
        if let Some(speed) = room.get(usize::from(line.numbers[i])) {
            say_value(to, *speed)?;
        }
    }
    Ok(())
}

// In a room's first places.
fn of_cycle(to: &impl Print, asked: Asked, line: Line) -> io::Result<()> {
    let mut room = [9999u16; 2048];
    let n = usize::from(asked.two).min(2048);
    fill(to, asked, &mut room[..n])?;
    say_places(to, line, room)
}

pub fn run_line(to: &impl Print, line: Line, job: Draft) -> io::Result<()> {
    let bytes = job.bytes;
    let part = begun(&bytes, job.end);
    let verb = line.verb;
    let asked = Asked {
        verb,
        one: line.numbers[1],
        two: line.numbers[2],
    };
    match verb {
        b'j' | b's' | b'w' | b'h' | b'r' | b'm' => of_job(to, asked, part),
        b'e' => of_export(to, part),
        b'f' | b'd' => of_cycle(to, asked, line),
        _ => Ok(()),
    }
}
