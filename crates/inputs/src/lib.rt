// What the programs read: a whole input, into memory that is lent.
#![tactic(auto)]

ghost use Rattle.std.specs.Prelude.{◌≤◌, length, IfOk};

use std::io::{self, Read};

// Reads until the memory is full or the input ends, and answers how many bytes came.
pub fn read_full(input: &mut impl Read, memory: &mut [u8]) -> io::Result<usize>
    ensures { IfOk result (λ n. n ≤ length memory.new) }
{
    let mut done = 0;
    // Each turn goes on by as much as the read gave, so there is nothing to count over.
    while done < memory.len() {
        let n = input.read(&mut memory[done..])?;
        if n == 0 {
            break;
        }
        done += n;
    }
    Ok(done)
}
