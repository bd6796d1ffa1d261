// What was answered, as text.
use rules::{Refusal, Summary};
use std::io;

pub fn say(to: &impl Print, text: &[u8]) -> io::Result<()> {
    to.write_all(text)
}

pub fn say_number(to: &impl Print, n: u64) -> io::Result<()> {
    say(to, b" ")?;
    to.print(n)
}

pub fn say_answer(to: &impl Print, answer: Result<(), Refusal>) -> io::Result<()> {
    match answer {
        Ok(()) => say(to, b": done"),
        Err(refusal) => {
            say(to, b": refused")?;
            say_number(to, u64::from(refusal.number()))?;
            say(to, b" at")?;
            // `as`: From has none from usize
            say_number(to, refusal.place() as u64)
        }
    }
}

pub fn say_value(to: &impl Print, value: u16) -> io::Result<()> {
    say_number(to, u64::from(value))
}

pub fn say_values(to: &impl Print, values: &[u16]) -> io::Result<()> {
    say(to, b",")?;
    for value in values {
        say_value(to, *value)?;
    }
    Ok(())
}

pub fn say_bytes(to: &impl Print, bytes: &[u8]) -> io::Result<()> {
    say(to, b",")?;
    for byte in bytes {
        say_value(to, u16::from(*byte))?;
    }
    Ok(())
}

// Standing seconds, seconds in each gear, gear changes.
pub fn say_summary(to: &impl Print, summary: Summary) -> io::Result<()> {
    say(to, b",")?;
    say_value(to, summary.standing)?;
    say_values(to, &summary.gears)?;
    say(to, b",")?;
    say_value(to, summary.changes)
}
