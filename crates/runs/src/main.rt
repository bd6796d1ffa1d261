// Works the cases of `stdin` through the functions that the other crates offer. `stdout` has each line again, with what was answered: what the papers ask for.
// A line is told by its first letter:
//   car NUMBERS                       a job as far as the curve, its numbers written as groups
//   trace NUMBERS, bytes NUMBERS      the rest of that job, as groups or byte by byte
//   job                               the job read
//   save VERSION N                    the job read, and written into a room of N bytes
//   work                              the job read and worked; its card begins with 99s
//   hold SECOND GEAR, release SECOND, mend SECOND SPEED      and edited after that
//   export                            the job's bytes read as an export
//   fill PART N PLACES                the built-in cycle into a room of N 9999s: the part's length, and the speeds at these places
//   downscale FACTOR N PLACES         the scaled cycle
#![tactic(auto)]

use inputs::read_full;
use std::io;

mod cases;
mod lines;
mod says;

use cases::run_line;
use lines::{Draft, begun, parse};
use says::say;

// The job after this line, and what was answered.
fn after(to: &impl Print, text: &[u8], job: Draft) -> io::Result<Draft> {
    say(to, text)?;
    let line = parse(text);
    let next = match line.verb {
        b'c' => job.with_car(line),
        b't' | b'b' => job.with_rest(line),
        _ => job,
    };
    run_line(to, line, next)?;
    say(to, b"\n")?;
    Ok(next)
}

// Line by line.
fn run_all(to: &impl Print, text: &[u8]) -> io::Result<()> {
    let mut job = Draft {
        bytes: [0u8; 256],
        car: 0,
        end: 0,
    };
    // where the line begins that ends at the next line feed
    let mut start = 0;
    for end in 0..text.len() {
        if text[end] == b'\n' {
            job = after(to, &text[start..end], job)?;
            start = end + 1;
        }
    }
    Ok(())
}

fn main(rt: HostRuntime) -> io::Result<()> {
    let mut text = [0u8; 8192];
    let n = read_full(&mut rt.stdin(), &mut text)?;
    run_all(&rt, begun(&text, n))
}
