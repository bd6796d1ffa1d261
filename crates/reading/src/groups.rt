// Groups: read with every test while the job is judged, and with none where they were judged before.
// The paper asks for let-else where the fault of one group's read is handed up; `?` stands where what is called is more than that. `unwrap_err` is there since
// the answers differ in what they bring. The job and the place in it stay two, the paper's value with cursor. An
// `as` fits: a value of a group has 16 bits at most.
ghost use Rattle.std.specs.Prelude.{◌≡◌, true, ◌<◌, length};
ghost use Rattle.rules.specs.Refusals.{fault};
ghost use Rattle.rules.specs.Groups.{got, group};
ghost use Rattle.rules.specs.Forms.{value, bounded, many};
ghost use Rattle.reading.specs.Reader.{came};
ghost use Rattle.reading.specs.Progress.{JobByte, ByteAs, reached, Comes, ShortGroup, used};

use rules::Refusal;

// A byte of the job, which is there.
fn job_byte(job: &[u8], i: usize) -> usize
    requires { i < length job.now }
    ensures { JobByte job.now i result }
{
    usize::from(job[i])
}

// A byte of the job, or that the job ends early. By a test of the length: `get` answers an Option of an address, which C's module has none of
// (scripts/retarget).
fn next_byte(job: &[u8], i: usize) -> Result<usize, Refusal>
    ensures { ByteAs job.now i result }
{
    if job.len() <= i {
        return Err(Refusal::JobEndsEarly(job.len()));
    }
    Ok(job_byte(job, i))
}

// A group and the place after it: seven bits a byte, least significant first, the top bit set when more follow; one to three bytes, shortest form only.
pub fn group_at(job: &[u8], at: usize) -> Result<(u16, usize), Refusal>
    ensures { came result ≡ group job.now at }
{
    let a = next_byte(job, at)?;
    if a < 128 {
        return Ok((a as u16, at + 1));
    }
    let b = next_byte(job, at + 1)?;
    let two = a % 128 + 128 * (b % 128);
    if b < 128 {
        // A last byte of 0 adds nothing: there is a shorter form.
        if b == 0 {
            return Err(Refusal::BadGroup(at));
        }
        return Ok((two as u16, at + 2));
    }
    let c = next_byte(job, at + 2)?;
    let three = two + 16384 * c;
    // A third byte that says more follow takes the value over 65,535 too.
    if c == 0 || 65535 < three {
        return Err(Refusal::BadGroup(at));
    }
    Ok((three as u16, at + 3))
}

// A group from lo to hi; another is refused as the caller says.
pub fn bounded(
    job: &[u8],
    at: usize,
    lo: u16,
    hi: u16,
    refusal: Refusal,
) -> Result<(u16, usize), Refusal>
    ensures { came result ≡ (bounded lo hi (fault refusal).no (fault refusal).spot).read job.now at }
{
    let group = group_at(job, at);
    let Ok((value, next)) = group else {
        return group;
    };
    if value < lo || hi < value {
        return Err(refusal);
    }
    Ok((value, next))
}

// A room of the reader's own is filled with groups; answers the place after them.
pub fn fill_values(job: &[u8], at: usize, room: &mut [u16]) -> Result<usize, Refusal>
    ensures { reached result room.new ≡ (many value (length room.old)).read job.now at }
{
    let mut next = at;
    for value in room.iter_mut() {
        let group = group_at(job, next);
        let Ok((read, after)) = group else {
            return Err(group.unwrap_err());
        };
        *value = read;
        next = after;
    }
    Ok(next)
}

// So many speeds, judged and not kept: a refusal writes nothing, and there is no room of the reader's own for a trace.
pub fn judge_speeds(job: &[u8], at: usize, count: usize) -> Result<usize, Refusal>
    ensures { reached result true ≡ used (λ vs. true) (many value count) job.now at }
{
    let mut next = at;
    for _ in 0..count {
        let group = group_at(job, next);
        let Ok((_, after)) = group else {
            return Err(group.unwrap_err());
        };
        next = after;
    }
    Ok(next)
}

// A group that was judged, so nothing is left to test but how long it is: its value and the place after it.
pub fn value_at(job: &[u8], at: usize) -> (u16, usize)
    requires { Comes (group job.now at) }
    ensures { got result.0 result.1 ≡ group job.now at }
{
    let a = job_byte(job, at);
    if a < 128 {
        return (a as u16, at + 1);
    }
    let b = job_byte(job, at + 1);
    // The top bits, 128 of the first byte and 128 times 128 of the second, are no part of the value.
    if b < 128 {
        let two = a + 128 * b - 128;
        return (two as u16, at + 2);
    }
    let c = job_byte(job, at + 2);
    let three = a + 128 * b + 16384 * c - 16512;
    (three as u16, at + 3)
}

// The same of a value below 16,384, which has one byte or two: for the speeds, which are most of a job, one test less.
pub fn short_at(job: &[u8], at: usize) -> (usize, usize)
    requires { ShortGroup (group job.now at) }
    ensures { got result.0 result.1 ≡ group job.now at }
{
    let a = job_byte(job, at);
    if a < 128 {
        return (a, at + 1);
    }
    let b = job_byte(job, at + 1);
    (a + 128 * b - 128, at + 2)
}

// A room is filled with speeds that were judged; answers the place after them.
pub fn fill_speeds(job: &[u8], at: usize, room: &mut [u16]) -> usize
    requires { Comes ((many value (length room.old)).read job.now at) }
    ensures { got room.new result ≡ (many value (length room.old)).read job.now at }
{
    let mut next = at;
    for speed in room.iter_mut() {
        (*speed, next) = value_at(job, next);
    }
    next
}
