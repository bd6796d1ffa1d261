// What an edit asks for, at the second that it names.
ghost use Rattle.std.specs.Prelude.{◌≡◌, ◌<◌, length};
ghost use Rattle.rules.specs.Edit.{second};
ghost use Rattle.edits.specs.Asks.{gear_asked, asked_of};

use checks::Asked;
use rules::Edit;

// The second that is edited.
pub fn second_of(edit: Edit) -> usize
    ensures { result ≡ second edit }
{
    match edit {
        Edit::Hold(second, _) | Edit::Release(second) | Edit::Mend(second, _) => second,
    }
}

// Above every ng; the definition `gear_asked` has it.
const OVER_NG: u8 = 255;

// A gear as the checks judge it: 0 is no gear, and counts as one above every ng.
fn gear_asked(gear: u8) -> u8
    ensures { result ≡ gear_asked gear }
{
    if gear == 0 { OVER_NG } else { gear }
}

// A hold or a release keeps the speed that is there, a mended sample the hold.
pub fn asked_of<'a>(speeds: &'a [u16], holds: &'a [u8], edit: Edit) -> Asked
    requires { (second edit < length speeds.now) × (second edit < length holds.now) }
    ensures { result ≡ asked_of edit speeds.now holds.now }
{
    match edit {
        Edit::Hold(second, gear) => Asked {
            second,
            speed: speeds[second],
            gear: gear_asked(gear),
        },
        Edit::Release(second) => Asked {
            second,
            speed: speeds[second],
            gear: 0,
        },
        Edit::Mend(second, speed) => Asked {
            second,
            speed,
            gear: holds[second],
        },
    }
}
