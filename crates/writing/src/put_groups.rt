// Bytes put into the lent room, which has space for them. Each function answers the place after what it put. What is put is narrower than what is counted
// with: an `as` stands where the value was tested, or the clause bounds it.
ghost use Rattle.std.specs.Prelude.{◌≡◌, [], ◌∷◌, ◌+◌, ◌≤◌, ◌<◌, length};
ghost use Rattle.rules.specs.Groups.{form};
ghost use Rattle.rules.specs.Job.{points_of, gather, vehicle};
ghost use Rattle.rules.specs.Inside.{InBounds};
ghost use Rattle.reading.specs.Lent.{Put};
ghost use Rattle.writing.specs.Writing.{values_bytes, counted_bytes, pairs_bytes, since, points_bytes, hold_bytes, Short, Light};

use crate::numbers::numbers_between;
use rules::Vehicle;

// A byte.
fn put_byte(room: &mut [u8], at: usize, byte: u8) -> usize
    requires { at < length room.old }
    ensures { Put (byte ∷ []) room.old at result room.new }
{
    room[at] = byte;
    at + 1
}

// A value of one or two bytes. The many speeds are put with this alone: the test for a third byte makes them slower by half.
fn put_short(room: &mut [u8], at: usize, v: u16) -> usize
    requires { (v < 16384) × (at + length (form v) ≤ length room.old) }
    ensures { Put (form v) room.old at result room.new }
{
    if v < 128 {
        return put_byte(room, at, v as u8);
    }
    let second = put_byte(room, at, (128 + v % 128) as u8);
    put_byte(room, second, (v / 128) as u8)
}

// A value's group, in its shortest form.
pub fn put_group(room: &mut [u8], at: usize, v: u16) -> usize
    requires { at + length (form v) ≤ length room.old }
    ensures { Put (form v) room.old at result room.new }
{
    if v < 16384 {
        return put_short(room, at, v);
    }
    let second = put_byte(room, at, (128 + v % 128) as u8);
    let third = put_byte(room, second, (128 + v / 128 % 128) as u8);
    put_byte(room, third, (v / 16384) as u8)
}

// Values in a row.
fn put_values(room: &mut [u8], at: usize, values: &[u16]) -> usize
    requires { at + length (values_bytes values.now) ≤ length room.old }
    ensures { Put (values_bytes values.now) room.old at result room.new }
{
    let mut next = at;
    for v in values {
        next = put_group(room, next, *v);
    }
    next
}

// How many, and the values.
fn put_counted(room: &mut [u8], at: usize, values: &[u16]) -> usize
    requires { (length values.now ≤ 65535) × (at + length (counted_bytes values.now) ≤ length room.old) }
    ensures { Put (counted_bytes values.now) room.old at result room.new }
{
    let first = put_group(room, at, values.len() as u16);
    put_values(room, first, values)
}

// The speeds, none of which has three bytes: with `put_short`, for the reason given there.
fn put_speeds(room: &mut [u8], at: usize, speeds: &[u16]) -> usize
    requires { Short speeds.now × (at + length (values_bytes speeds.now) ≤ length room.old) }
    ensures { Put (values_bytes speeds.now) room.old at result room.new }
{
    let mut next = at;
    for v in speeds {
        next = put_short(room, next, *v);
    }
    next
}

// Sample count and speeds.
pub fn put_trace(room: &mut [u8], at: usize, speeds: &[u16]) -> usize
    requires { Short speeds.now × (length speeds.now ≤ 65535) × (at + length (counted_bytes speeds.now) ≤ length room.old) }
    ensures { Put (counted_bytes speeds.now) room.old at result room.new }
{
    let first = put_group(room, at, speeds.len() as u16);
    put_speeds(room, first, speeds)
}

// A value that versions have from the first so numbered on; nothing before.
fn put_since(room: &mut [u8], at: usize, first: u16, version: u16, v: u16) -> usize
    requires { at + length ((since first version).write v) ≤ length room.old }
    ensures { Put ((since first version).write v) room.old at result room.new }
{
    if version < first {
        return at;
    }
    put_group(room, at, v)
}

// n, p and m of each point in turn.
fn put_points(room: &mut [u8], at: usize, version: u16, car: &Vehicle) -> usize
    requires { (car.now.points ≤ 64) × (at + length (points_bytes version (points_of car.now.points car.now.n car.now.p car.now.m)) ≤ length room.old) }
    ensures { Put (points_bytes version (points_of car.now.points car.now.n car.now.p car.now.m)) room.old at result room.new }
{
    let mut next = at;
    for i in 0..usize::from(car.points) {
        let then = put_group(room, next, car.n[i]);
        let last = put_group(room, then, car.p[i]);
        next = put_since(room, last, 2, version, car.m[i]);
    }
    next
}

// Second and gear of a hold; nothing where there is none. The checks have shown that the second has two bytes at most, and the gear one.
fn put_hold(room: &mut [u8], at: usize, second: u16, gear: u8) -> usize
    requires { (second < 16384) × (gear < 128) × (at + length (hold_bytes second gear) ≤ length room.old) }
    ensures { Put (hold_bytes second gear) room.old at result room.new }
{
    if gear == 0 {
        return at;
    }
    let then = put_short(room, at, second);
    put_byte(room, then, gear)
}

// Second and gear for each of so many holds. Most traces have none.
pub fn put_held(room: &mut [u8], at: usize, holds: &[u8], count: u16) -> usize
    requires { Light holds.now × (count ≡ length (gather 0 holds.now)) × (at + length (pairs_bytes (gather 0 holds.now)) ≤ length room.old) }
    ensures { Put (pairs_bytes (gather 0 holds.now)) room.old at result room.new }
{
    if count == 0 {
        return at;
    }
    let mut next = at;
    for (second, gear) in holds.iter().enumerate() {
        next = put_hold(room, next, second as u16, *gear);
    }
    next
}

// The vehicle: the profile, from version 3 on; the gears, the eight numbers, the curve.
pub fn put_vehicle(room: &mut [u8], at: usize, version: u16, car: &Vehicle) -> usize
    requires { InBounds car.now × (at + length ((vehicle version).write car.now) ≤ length room.old) }
    ensures { Put ((vehicle version).write car.now) room.old at result room.new }
{
    let gears = put_since(room, at, 3, version, car.profile);
    let middle = put_counted(room, gears, &car.ratio[..usize::from(car.ng)]);
    let curve = put_values(room, middle, &numbers_between(car));
    let first = put_group(room, curve, car.points);
    put_points(room, first, version, car)
}
