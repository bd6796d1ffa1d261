// A room filled with the cycle.
ghost use Rattle.std.specs.Prelude.{◌≡◌, ◌≤◌, length};
ghost use Rattle.rules.specs.Job.{filled};
ghost use Rattle.rules.specs.Refusals.{said};
ghost use Rattle.cycles.specs.Parts.{fill_fault, fill_room};

use crate::class_3::CLASS_3;
use crate::parts::check_part;
use rules::Refusal;

// The table is lent as a slice, so that it is read where it stands and not built again on the stack. Place by place: `copy_from_slice` compares two
// addresses, and WebAssembly takes the module as it stands, but for the heading, only without that (scripts/retarget).
fn copy_in(room: &mut [u16], table: &[u16])
    requires { length table.now ≤ length room.old }
    ensures { room.new ≡ filled room.old table.now }
{
    for i in 0..table.len() {
        room[i] = table[i];
    }
}

// The whole cycle in the first 1,801 places, whatever the part; or the first refusal, and nothing written.
pub fn fill(part: u32, room: &mut [u16]) -> Result<(), Refusal>
    ensures answer { said result ≡ fill_fault part (length room.old) }
    ensures room { room.new ≡ fill_room part room.old }
{
    check_part(part, room.len())?;
    copy_in(room, &CLASS_3);
    Ok(())
}
