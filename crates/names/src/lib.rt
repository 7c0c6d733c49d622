// The names that the sheet of an accepted program lists.
#![tactic(auto)]

ghost use Rattle.std.specs.Prelude.{◌≡◌, false, ◌<◌, get_or};
ghost use Rattle.meaning.proofs.Faults.{Sound};
ghost use Rattle.meaning.specs.Limits.{most_frames, most_names};
ghost use Rattle.names.specs.Names.{Names, ToldOf};

use bound::{Marks, may_bind};
use frames::{Frames, Held, held_in};
use image::{areas, name_at};
use sheet::list::{NameList, put_name};
use types;

// What the sheet tells of a name: the newest frame's type, and "a listed name that the frame lacks is Unknown".
fn told_of(frames: &Frames, top: usize, bound: &Marks, name: usize) -> Held
    requires { (top < most_frames) × (name < most_names) }
    ensures { ToldOf frames.now top name (get_or bound.now name false) result }
{
    let held = held_in(frames, top, name);
    if bound[name] {
        return held.or(Some(types::UNKNOWN));
    }
    held
}

// Lists "each name that an Assign or a For at module level may bind .. together with all names of the module frame",
// which is the newest, in order and with their types, and gives their number.
pub fn list_names(image: &[u8], frames: &Frames, top: usize, names: &mut NameList) -> usize
    requires sound { Sound image.now }
    requires top_lt_most_frames { top < most_frames }
    ensures { Names image.now frames.now top names.new result }
{
    let l = areas(image);
    let bound = may_bind(image);
    let mut count = 0;
    for k in 0..l.names {
        if let Some(ty) = told_of(frames, top, &bound, k) {
            let name = name_at(image, k);
            put_name(
                names,
                count,
                l.texts as u32 + name.start,
                name.len,
                ty as u32,
            );
            count += 1;
        }
    }
    count
}
