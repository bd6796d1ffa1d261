// The eight numbers between the gears and the curve, as a job has them.
ghost use Rattle.std.specs.Prelude.{◌≡◌, ◌≤◌, pos, nat_abs, ◌+ℤ◌};
ghost use Rattle.rules.specs.Job.{parts_of};

use rules::Vehicle;

// F1 plus 5,000.
fn unsigned(f1: i32) -> u16
    requires { nat_abs f1 ≤ 5000 }
    ensures { result ≡ nat_abs (f1 +ℤ pos 5000) }
{
    // `as` fits: from 0 to 10,000
    (f1 + 5000) as u16
}

// Idle, rated, nmax, F0, F1 plus 5,000, F2, TM and M.
pub fn numbers_between(car: &Vehicle) -> [u16; 8]
    requires { nat_abs car.now.f1 ≤ 5000 }
    ensures { result ≡ (parts_of car.now).1.1.0 }
{
    let f1 = unsigned(car.f1);
    [
        car.idle, car.rated, car.nmax, car.f0, f1, car.f2, car.tm, car.margin,
    ]
}
