// The text that the card program prints, built in lent memory piece by piece. Each function that puts answers the place after what it put.
ghost use Rattle.std.specs.Prelude.{◌≡◌, ◌+◌, ◌*◌, ◌%◌, ◌≤◌, ◌<◌, length};
ghost use Rattle.rules.specs.Words.{part};
ghost use Rattle.rules.specs.Refusals.{fault};
ghost use Rattle.rules.specs.Text.{decimal, pedal, line, lines, card_text, refusal_text, program_room, printed_fault, printed};
ghost use Rattle.reading.specs.Lent.{Put};
ghost use Rattle.gearcard.specs.Printing.{Begins, speed_text, gear_text, text_of};

use rules::{Refusal, Vehicle};

// The card program has room for so many seconds.
const ROOM: usize = 4096;

// The most bytes of a text: a line has at most 20 and the heading 25.
pub const TEXT: usize = 81945;

// Puts bytes at a place.
fn put(out: &mut [u8], at: usize, src: &[u8]) -> usize
    requires { at + length src.now ≤ length out.old }
    ensures { Put src.now out.old at result out.new }
{
    let end = at + src.len();
    out[at..end].copy_from_slice(src);
    end
}

// The last digit of a number, as ASCII.
fn digit(n: u64) -> u8
    ensures { result ≡ 48 + n % 10 }
{
    48 + (n % 10) as u8
}

// Puts the digits of a number, the last one first, at the end of 20 bytes, and answers where they begin.
fn spell(n: u64, digits: &mut [u8]) -> usize
    requires { length digits.old ≡ 20 }
    ensures { (result < 20) × (part digits.new result 20 ≡ decimal n) }
{
    let mut i: usize = 19;
    let mut rest = n;
    // It goes on while there are digits: how many there are is found out by this.
    while 10 <= rest {
        digits[i] = digit(rest);
        rest /= 10;
        i -= 1;
    }
    digits[i] = digit(rest);
    i
}

// Puts a number in decimal.
fn put_decimal(out: &mut [u8], at: usize, n: u64) -> usize
    requires { at + length (decimal n) ≤ length out.old }
    ensures { Put (decimal n) out.old at result out.new }
{
    let mut digits = [0u8; 20];
    let from = spell(n, &mut digits);
    put(out, at, &digits[from..])
}

// Puts the clutch of a card's byte and a line's end.
fn put_pedal(out: &mut [u8], at: usize, byte: u8) -> usize
    requires { at + length (pedal byte) ≤ length out.old }
    ensures { Put (pedal byte) out.old at result out.new }
{
    if 16 <= byte {
        return put(out, at, b" down\n");
    }
    put(out, at, b" up\n")
}

// Puts a speed, in km/h.
fn put_speed(out: &mut [u8], at: usize, v: u16) -> usize
    requires { at + length (speed_text v) ≤ length out.old }
    ensures { Put (speed_text v) out.old at result out.new }
{
    let dot = put_decimal(out, at, u64::from(v / 10));
    let tenth = put(out, dot, b".");
    put_decimal(out, tenth, u64::from(v % 10))
}

// Puts the gear and the clutch of a card's byte.
fn put_gear(out: &mut [u8], at: usize, byte: u8) -> usize
    requires { at + length (gear_text byte) ≤ length out.old }
    ensures { Put (gear_text byte) out.old at result out.new }
{
    let gear = put(out, at, b" ");
    let clutch = put_decimal(out, gear, u64::from(byte % 16));
    put_pedal(out, clutch, byte)
}

// Puts a second's line.
fn put_line(out: &mut [u8], at: usize, i: usize, v: u16, byte: u8) -> usize
    requires { at + length (line i v byte) ≤ length out.old }
    ensures { Put (line i v byte) out.old at result out.new }
{
    // `as`: From has none from usize
    let blank = put_decimal(out, at, i as u64);
    let speed = put(out, blank, b" ");
    let gear = put_speed(out, speed, v);
    put_gear(out, gear, byte)
}

// Puts the lines of a whole trace and its card.
fn put_lines(out: &mut [u8], at: usize, speeds: &[u16], card: &[u8]) -> usize
    requires speeds_len_bound { length speeds.now ≤ 10000 }
    requires card_len { length card.now ≡ length speeds.now }
    requires speeds_in_bounds { at + 20 * length speeds.now ≤ length out.old }
    ensures { Put (lines speeds.now card.now 0 (length speeds.now)) out.old at result out.new }
{
    let mut next = at;
    for i in 0..speeds.len() {
        next = put_line(out, next, i, speeds[i], card[i]);
    }
    next
}

// Puts a card as text.
fn put_card(out: &mut [u8], at: usize, speeds: &[u16], card: &[u8]) -> usize
    requires speeds_len_bound { length speeds.now ≤ 10000 }
    requires card_len { length card.now ≡ length speeds.now }
    requires speeds_in_bounds { at + (25 + 20 * length speeds.now) ≤ length out.old }
    ensures { Put (card_text speeds.now card.now) out.old at result out.new }
{
    let at = put(out, at, b"second speed gear clutch\n");
    put_lines(out, at, speeds, card)
}

// Puts a refusal's line.
fn put_refusal(out: &mut [u8], at: usize, refusal: Refusal) -> usize
    requires { at + 43 ≤ length out.old }
    ensures { Put (refusal_text (fault refusal)) out.old at result out.new }
{
    let number = u64::from(refusal.number());
    let spot = refusal.place() as u64;
    let at = put(out, at, b"refused ");
    let at = put_decimal(out, at, number);
    let at = put(out, at, b" at ");
    let at = put_decimal(out, at, spot);
    put(out, at, b"\n")
}

// Works a job that was read, into lent memory for its card, and puts the card or why not.
fn put_worked<'a>(
    vehicle: Vehicle,
    speeds: &'a [u16],
    holds: &'a [u8],
    card: &mut [u8],
    out: &mut [u8],
) -> usize
    requires speeds_len_bound { length speeds.now ≤ program_room }
    requires card_len { length card.old ≡ length speeds.now }
    requires program_room_in_bounds { 25 + 20 * program_room ≤ length out.old }
    ensures { Put (text_of vehicle speeds.now holds.now) out.old 0 result out.new }
{
    match cards::work(vehicle, speeds, holds, card) {
        Ok(()) => put_card(out, 0, speeds, card),
        Err(refusal) => put_refusal(out, 0, refusal),
    }
}

// A trace that is too long for the program's room is told as too long: 1 where the reader answers 2, by the number, as `printed_fault` has it.
fn as_printed(refusal: Refusal) -> Refusal
    ensures { fault result ≡ printed_fault (fault refusal) }
{
    if refusal.number() == 2 {
        return Refusal::TraceLength;
    }
    refusal
}

// What the card program prints of a job, at the start of lent memory: its card or one refusal. No other byte is touched.
pub fn answer(job: &[u8], out: &mut [u8; TEXT]) -> usize
    ensures { Begins (printed job.now) out.old result out.new }
{
    let mut speeds = [0u16; ROOM];
    let mut holds = [0u8; ROOM];
    let mut card = [0u8; ROOM];
    match reading::read(job, &mut speeds, &mut holds) {
        Ok(reading) => {
            let count = reading.count;
            put_worked(
                reading.vehicle,
                &speeds[..count],
                &holds[..count],
                &mut card[..count],
                out,
            )
        }
        Err(refusal) => put_refusal(out, 0, as_printed(refusal)),
    }
}
