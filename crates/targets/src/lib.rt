// Assignment to a target: T's tc_assign_target.
#![tactic(auto)]

ghost use Rattle.std.specs.Prelude.{◌<◌};
ghost use Rattle.types.specs.Reading.{Known};
ghost use Rattle.meaning.specs.Limits.{most_names, most_frames, most_nodes};
ghost use Rattle.state.specs.Lent.{lent};
ghost use Rattle.types.specs.Table.{most_numbers};
ghost use Rattle.targets.specs.Spreading.{Sharing, Share};
ghost use Rattle.targets.specs.Clauses.{Assignable, Spreadable};
ghost use Rattle.targets.specs.Clauses.{AssignsName, UnpacksInto, Assigns, AssignsEach};

use codes::Code;
use expr::tc_expr;
use frames::{Frames, bind, lookup, since};
use image::{Cursor, kinds};
use state::{Notes, Outcome, Walk};
use types;
use types::{Kind, agreed, kind_of, part_at, part_of, parts_of};

// "Absent or Unknown takes the new type; Unknown keeps the old one; otherwise equal or 25": type `ty` for name x, at
// node `at`, the Variable. 25 points at the node that first made the old type known, too.
fn assign_name(
    frames: &mut Frames,
    top: usize,
    notes: &mut Notes,
    at: usize,
    x: usize,
    ty: usize,
) -> Outcome
    requires { (top < most_frames) × (at < most_nodes) × (x < most_names) × (ty < most_numbers) }
    ensures { AssignsName top at x ty result frames.old frames.new notes.old notes.new }
{
    let old = lookup(frames, top, x);
    let Some(both) = agreed(old.ty, ty) else {
        return Err(notes.conflict(Code::CannotAssign, at, old.first, ty, old.ty));
    };
    bind(frames, top, x, since(old.first, at, both));
    Ok(())
}

// Whether type `ty` can be unpacked into the k targets of the Tuple at node `at`: a List and Unknown into any number.
fn unpack(table: &[u16], notes: &mut Notes, at: usize, ty: usize, k: u32) -> Outcome
    requires { Known table.now ty }
    ensures { UnpacksInto at k ty result table.now notes.old notes.new }
{
    match kind_of(table, ty) {
        Kind::Unknown | Kind::List => Ok(()),
        Kind::Tuple => {
            let n = parts_of(table, ty);
            let k = k as usize;
            if n != k {
                return Err(notes.refuse(Code::UnpackLength, at, n, k));
            }
            Ok(())
        }
        _ => Err(notes.refuse(Code::UnpackNonIterable, at, ty, 0)),
    }
}

// The type that target j gets of type `ty`.
fn part_for(table: &[u16], ty: usize, j: usize) -> usize
    requires { Sharing table.now ty j }
    ensures { Share table.now ty j result }
{
    match kind_of(table, ty) {
        Kind::List => part_of(table, ty),
        Kind::Tuple => part_at(table, ty, j),
        _ => types::UNKNOWN,
    }
}

// Assigns a value of type `ty` to the target at the cursor. Attribute and Index targets are checked as expressions and
// not tracked, and 28 is what cannot be a target.
#[cycle(tc_assign_target)]
pub fn tc_assign_target(
    image: &[u8],
    here: Cursor,
    frames: &mut Frames,
    top: usize,
    table: &mut [u16],
    w: &mut Walk,
    ty: usize,
    depth: usize,
) -> Outcome
    requires { Assignable image.now here top ty depth (lent frames.old table.old w.old) }
    ensures { Assigns image.now here top ty depth result
        (lent frames.old table.old w.old) (lent frames.new table.new w.new) }
{
    let node = here.next(image).node;
    match node.kind {
        kinds::VARIABLE => assign_name(frames, top, &mut w.notes, here.at, node.arg as usize, ty),
        kinds::ATTRIBUTE | kinds::INDEX => {
            tc_expr(image, here, frames, top, table, w, 0, depth)?;
            Ok(())
        }
        kinds::TUPLE => {
            unpack(table, &mut w.notes, here.at, ty, node.children)?;
            let n = node.children as usize;
            assign_each(image, here, frames, top, table, w, n, ty, depth - 1)
        }
        _ => Err(w.notes.refuse(Code::InvalidTarget, here.at, 0, 0)),
    }
}

// "Tuple targets bind left to right, and those bound before an error stay bound": the n targets of the Tuple at the
// cursor.
#[cycle(tc_assign_target)]
fn assign_each(
    image: &[u8],
    here: Cursor,
    frames: &mut Frames,
    top: usize,
    table: &mut [u16],
    w: &mut Walk,
    n: usize,
    ty: usize,
    depth: usize,
) -> Outcome
    requires { Spreadable image.now here top n ty depth (lent frames.old table.old w.old) }
    ensures { AssignsEach image.now here top n ty depth result
        (lent frames.old table.old w.old) (lent frames.new table.new w.new) }
{
    let mut next = here.next(image).cursor;
    for j in 0..n {
        let part = part_for(table, ty, j);
        tc_assign_target(image, next, frames, top, table, w, part, depth)?;
        next = next.over(image).cursor;
    }
    Ok(())
}
