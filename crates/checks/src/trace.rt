// A trace as it would be with what is asked for and not yet written.
ghost use Rattle.std.specs.Prelude.{◌≡◌, length};

// What is asked for at one second and not yet written: its speed and its hold, 0 for none. A hold or a release asks for the speed that is there, a mended
// sample for the hold that is there. A second past the trace asks for nothing, as `speeds_with` and `holds_with` say it: an Option would be taken apart at
// every second that is looked at.
#[derive(Clone, Copy)]
pub struct Asked {
    pub second: usize,
    pub speed: u16,
    pub gear: u8,
}

// A speed and a hold for each second, and what is asked for.
#[derive(Clone, Copy)]
pub struct Trace<'a> {
    pub speeds: &'a [u16],
    pub holds: &'a [u8],
    pub asked: Asked,
    pub ghost rooms: { length holds.now ≡ length speeds.now },
}

impl<'a> Trace<'a> {
    ghost use Rattle.std.specs.Prelude.{◌<◌};
    ghost use Rattle.rules.specs.Words.{at};
    ghost use Rattle.checks.specs.Asked.{speeds_in, holds_in};

    // A trace of which nothing is asked: the second lies past it.
    pub fn written(speeds: &'a [u16], holds: &'a [u8]) -> Trace<'a>
        requires { length holds.now ≡ length speeds.now }
        ensures speeds { result.speeds.now ≡ speeds.now }
        ensures holds { result.holds.now ≡ holds.now }
        ensures second { result.asked.second ≡ length speeds.now }
        ensures nothing_asked { (speeds_in result ≡ speeds.now) × (holds_in result ≡ holds.now) }
    {
        let asked = Asked {
            second: speeds.len(),
            speed: 0,
            gear: 0,
        };
        Trace {
            speeds,
            holds,
            asked,
        }
    }

    // The hold of second i, were what is asked for written. Of one form with `speed_at`: a function of both lists and both kinds would be longer than the two.
    pub fn hold_at(self, i: usize) -> u8
        requires { i < length self.holds.now }
        ensures { result ≡ at (holds_in self.entry) i }
    {
        if i == self.asked.second {
            self.asked.gear
        } else {
            self.holds[i]
        }
    }

    // The speed of second i, were it written.
    pub fn speed_at(self, i: usize) -> u16
        requires { i < length self.speeds.now }
        ensures { result ≡ at (speeds_in self.entry) i }
    {
        if i == self.asked.second {
            self.asked.speed
        } else {
            self.speeds[i]
        }
    }
}
