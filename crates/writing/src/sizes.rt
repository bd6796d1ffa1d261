// How long a job is: measured before the first byte is put. Each size has a bound, so that no sum of sizes is too large.
ghost use Rattle.std.specs.Prelude.{◌≡◌, ◌+◌, ◌*◌, ◌≤◌, length, drop};
ghost use Rattle.rules.specs.Groups.{form};
ghost use Rattle.rules.specs.Job.{gather, vehicle};
ghost use Rattle.rules.specs.Inside.{InBounds};
ghost use Rattle.writing.specs.Writing.{values_bytes, counted_bytes, pairs_bytes, since, margins_bytes, Light};

use crate::HoldSizes;
use crate::numbers::numbers_between;
use rules::Vehicle;

// The bytes of a value's group after its first.
fn more(v: u16) -> u16
    ensures size { 1 + result ≡ length (form v) }
    ensures few { result ≤ 2 }
{
    match v {
        0..=127 => 0,
        128..=16383 => 1,
        _ => 2,
    }
}

// The bytes of a value's group.
pub fn group_size(v: u16) -> usize
    ensures size { result ≡ length (form v) }
    ensures few { result ≤ 3 }
{
    1 + usize::from(more(v))
}

// The bytes of values in a row. Those after the first of each group are summed up in sixteen bits, so that many values are looked at at once.
fn values_size(values: &[u16]) -> usize
    requires { length values.now ≤ 16384 }
    ensures size { result ≡ length (values_bytes values.now) }
    ensures few { result ≤ 3 * length values.now }
{
    let mut extra: u16 = 0;
    for v in values {
        extra += more(*v);
    }
    values.len() + usize::from(extra)
}

// The bytes of how many there are, and of the values.
pub fn counted_size(values: &[u16]) -> usize
    requires { length values.now ≤ 16384 }
    ensures size { result ≡ length (counted_bytes values.now) }
    ensures few { result ≤ 3 + 3 * length values.now }
{
    // `as` fits: what is asked of the length
    group_size(values.len() as u16) + values_size(values)
}

// How many holds there are from a second on.
fn held_from(holds: &[u8], from: usize) -> u16
    requires { length holds.now ≤ 65535 }
    ensures { result ≡ length (gather from (drop from holds.now)) }
{
    let mut count = 0;
    for i in from..holds.len() {
        count += u16::from(holds[i] != 0);
    }
    count
}

// The bytes of their seconds and gears: a gear has one byte, a second one, or two from 128 on, as the checks before have shown. Most traces have no hold.
fn held_size(holds: &[u8], count: u16) -> usize
    requires { Light holds.now × (count ≡ length (gather 0 holds.now)) }
    ensures size { result ≡ length (pairs_bytes (gather 0 holds.now)) }
    ensures few { result ≤ 3 * 65535 }
{
    if count == 0 {
        return 0;
    }
    2 * usize::from(count) + usize::from(held_from(holds, 128))
}

// How many holds there are, and the bytes of their seconds and gears.
pub fn hold_sizes(holds: &[u8]) -> HoldSizes
    requires { Light holds.now }
    ensures count { result.count ≡ length (gather 0 holds.now) }
    ensures size { result.bytes ≡ length (pairs_bytes (gather 0 holds.now)) }
    ensures few { result.bytes ≤ 3 * 65535 }
{
    let count = held_from(holds, 0);
    HoldSizes {
        count,
        bytes: held_size(holds, count),
    }
}

// The bytes of margins in a row, from version 2 on; none before.
fn margins_size(version: u16, margins: &[u16]) -> usize
    requires { length margins.now ≤ 16384 }
    ensures size { result ≡ length (margins_bytes version margins.now) }
    ensures few { result ≤ 3 * length margins.now }
{
    if version < 2 {
        return 0;
    }
    values_size(margins)
}

// The bytes of a value that versions have from the first so numbered on; none before.
fn since_size(first: u16, version: u16, v: u16) -> usize
    ensures size { result ≡ length ((since first version).write v) }
    ensures few { result ≤ 3 }
{
    if version < first {
        return 0;
    }
    group_size(v)
}

// The bytes of the vehicle.
pub fn vehicle_size(version: u16, car: &Vehicle) -> usize
    requires { InBounds car.now }
    ensures size { result ≡ length ((vehicle version).write car.now) }
    ensures few { result ≤ 639 }
{
    let points = usize::from(car.points);
    let profile = since_size(3, version, car.profile);
    let gearbox = counted_size(&car.ratio[..usize::from(car.ng)]);
    let between = values_size(&numbers_between(car));
    let curve = group_size(car.points)
        + values_size(&car.n[..points])
        + values_size(&car.p[..points]);
    let margins = margins_size(version, &car.m[..points]);
    profile + gearbox + between + curve + margins
}
