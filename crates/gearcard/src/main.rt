// The card program: reads a job on standard input and prints its card, or the one refusal. It only reads and writes: what is printed is
// `text::answer`. It has room for 4,096 seconds: a job of a longer trace is refused by 1. A job of that many has at most 12,504 groups of at most 3
// bytes, so 37,512 bytes; one byte more shows that it is too long, and by the theorem `long_input` of rules the bytes after it change nothing.
// Where a read or a write fails, the program says so on standard error and ends with status 1.
#![tactic(auto)]

use inputs::read_full;
use std::io;

mod text;

use text::{TEXT, answer};

fn main(rt: HostRuntime) -> io::Result<()> {
    let mut job = [0u8; 37513];
    let mut out = [0u8; TEXT];
    let n = read_full(&mut rt.stdin(), &mut job)?;
    let k = answer(&job[..n], &mut out);
    rt.write_all(&out[..k])
}
