// The version and the vehicle.
ghost use Rattle.std.specs.Prelude.{◌≡◌, ◌≤◌, length, pos, ◌-ℤ◌, leb};
ghost use Rattle.rules.specs.Forms.{◌then◌, value, only_if, many};
ghost use Rattle.rules.specs.Job.{version, profile, gearbox, point, curve, vehicle};
ghost use Rattle.reading.specs.Reader.{came, blank};
ghost use Rattle.reading.specs.Progress.{reached, used, into, gears, columns, car, car_of};

use crate::groups::{bounded, fill_values, group_at};
use crate::{Car, Curve, Gearbox};
use rules::{FEWEST_GEARS, FEWEST_POINTS, MOST_GEARS, MOST_POINTS, Refusal, Vehicle};

// F1, which stands in the job with 5,000 added.
fn signed(x: u16) -> i32
    ensures { result ≡ pos x -ℤ pos 5000 }
{
    i32::from(x) - 5000
}

// A vehicle of zeros, written out since an array of 64 has no `Default`, from which one could be derived.
pub fn blank() -> Vehicle
    ensures { result ≡ blank }
{
    Vehicle {
        ng: 0,
        ratio: [0; 10],
        idle: 0,
        rated: 0,
        nmax: 0,
        f0: 0,
        f1: 0,
        f2: 0,
        tm: 0,
        margin: 0,
        points: 0,
        n: [0; 64],
        p: [0; 64],
        m: [0; 64],
        profile: 0,
    }
}

// The profile, 0 or 1, from version 3 on; before, it is 0 and no group.
fn profile_at(job: &[u8], at: usize, version: u16) -> Result<(u16, usize), Refusal>
    ensures { came result ≡ (profile version).read job.now at }
{
    if version < 3 {
        return Ok((0, at));
    }
    bounded(job, at, 0, 1, Refusal::VehicleField(1))
}

// The gear count, which is one more above a crawler, and the ratios; places past the gears stay 0.
fn gearbox_at(job: &[u8], at: usize, profile: u16) -> Result<(Gearbox, usize), Refusal>
    requires { profile ≤ 1 }
    ensures { came result ≡ used gears (gearbox profile) job.now at }
{
    let fewest = FEWEST_GEARS + profile;
    let group = bounded(job, at, fewest, MOST_GEARS, Refusal::VehicleField(1));
    let Ok((ng, at)) = group else {
        return Err(group.unwrap_err());
    };
    let mut ratio = [0; 10];
    let at = fill_values(job, at, &mut ratio[..usize::from(ng)])?;
    Ok((Gearbox { ng, ratio }, at))
}

// A point's margin, from version 2 on; before, it is 0 and no group.
fn margin_at(job: &[u8], at: usize, version: u16) -> Result<(u16, usize), Refusal>
    ensures { came result ≡ (only_if (leb 2 version) 0 value).read job.now at }
{
    if version < 2 {
        return Ok((0, at));
    }
    group_at(job, at)
}

// So many points, n, p and m of each in turn, into the starts of three rooms of the reader's own: the three arrays of the C record.
fn fill_points(
    job: &[u8],
    at: usize,
    version: u16,
    count: usize,
    ns: &mut [u16],
    ps: &mut [u16],
    ms: &mut [u16],
) -> Result<usize, Refusal>
    requires { (count ≤ length ns.old) × (count ≤ length ps.old) × (count ≤ length ms.old) }
    ensures { reached result (ns.new, (ps.new, ms.new)) ≡ used (into ns.old ps.old ms.old 0)
        (many (point version) count) job.now at }
{
    let mut next = at;
    for i in 0..count {
        let group = group_at(job, next);
        let Ok((n, then)) = group else {
            return Err(group.unwrap_err());
        };
        let group = group_at(job, then);
        let Ok((p, last)) = group else {
            return Err(group.unwrap_err());
        };
        let group = margin_at(job, last, version);
        let Ok((m, after)) = group else {
            return Err(group.unwrap_err());
        };
        ns[i] = n;
        ps[i] = p;
        ms[i] = m;
        next = after;
    }
    Ok(next)
}

// The point count and the points; places past the points stay 0.
fn curve_at(job: &[u8], at: usize, version: u16) -> Result<(Curve, usize), Refusal>
    ensures { came result ≡ used columns (curve version) job.now at }
{
    let refusal = Refusal::VehicleField(11);
    let group = bounded(job, at, FEWEST_POINTS, MOST_POINTS, refusal);
    let Ok((points, at)) = group else {
        return Err(group.unwrap_err());
    };
    let count = usize::from(points);
    let mut n = [0; 64];
    let mut p = [0; 64];
    let mut m = [0; 64];
    let at = fill_points(job, at, version, count, &mut n, &mut p, &mut m)?;
    Ok((Curve { points, n, p, m }, at))
}

// The vehicle of its parts; the numbers are idle, rated, nmax, F0, F1, F2, TM and M.
fn vehicle_of(profile: u16, gearbox: Gearbox, numbers: [u16; 8], curve: Curve) -> Vehicle
    ensures { result ≡ car_of profile gearbox numbers curve }
{
    let Gearbox { ng, ratio } = gearbox;
    let [idle, rated, nmax, f0, f1, f2, tm, margin] = numbers;
    let Curve { points, n, p, m } = curve;
    Vehicle {
        ng,
        ratio,
        idle,
        rated,
        nmax,
        f0,
        f1: signed(f1),
        f2,
        tm,
        margin,
        points,
        n,
        p,
        m,
        profile,
    }
}

// The version and the vehicle.
pub fn car_at(job: &[u8]) -> Result<(Car, usize), Refusal>
    ensures { came result ≡ used car (version then λ v. vehicle v) job.now 0 }
{
    let group = bounded(job, 0, 1, 3, Refusal::BadVersion);
    let Ok((version, at)) = group else {
        return Err(group.unwrap_err());
    };
    let group = profile_at(job, at, version);
    let Ok((profile, at)) = group else {
        return Err(group.unwrap_err());
    };
    let (gearbox, at) = gearbox_at(job, at, profile)?;
    let mut numbers = [0; 8];
    let at = fill_values(job, at, &mut numbers)?;
    let (curve, at) = curve_at(job, at, version)?;
    let vehicle = vehicle_of(profile, gearbox, numbers, curve);
    Ok((Car { version, vehicle }, at))
}
