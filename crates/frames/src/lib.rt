// Frames as eight rows of 128 cells. A cell has two halves: a type's number + 1, or 0 where the name is absent; and the
// number + 1 of the node that first made the type known, or 0 where none did. Only this file knows that.
#![tactic(auto)]

ghost use Rattle.std.specs.Prelude.{◌≡◌, Bool, true, false, ℕ, suc, ◌+◌, ◌<◌, ◌≤◌, length, get_or, set, List, [], ◌∷◌};
ghost use Rattle.std.proofs.Math.Option.{none};
ghost use Rattle.meaning.specs.Limits.{most_names, most_frames};
ghost use Rattle.frames.specs.Env.{cell_room, type_in, node_in, node_from, first_node, first_number};
ghost use Rattle.frames.specs.Env.{FirstBelow, Holds, Looked};
ghost use Rattle.frames.specs.Env.{Known, Bound, absent_row, tells_cell, note_cell, clash_cell, Noted, Committed};

use limits::{MOST_FRAMES, MOST_NAMES};
use types;

// "Eight rows of 128 type numbers, copied whole": a frame for each Def around a statement and one for the module, and a
// cell for each name. What is kept beside a type stands in its cell, and so is copied with it.
pub type Row = [u32; MOST_NAMES];

pub type Frames = [Row; MOST_FRAMES];

// A yes or no per name.
pub type Marks = [bool; MOST_NAMES];

// What a cell counts its nodes by.
const HALF: u32 = 65536;

// The half for the type where there is none, and where it is Unknown; every other is that of a known type.
const ABSENT: u32 = 0;

const UNKNOWN: u32 = 1;

// The cell of an absent name. Its half for the node is of no matter and not 0, since a row of zeros is filled by a call
// of the C library that stores byte by byte, and any other 16 bytes at a time.
const NO_TYPE: u32 = HALF + ABSENT;

// A frame in which every name is absent, and eight of them.
pub const NO_NAMES: Row = [NO_TYPE; MOST_NAMES];

pub const EMPTY: Frames = [NO_NAMES; MOST_FRAMES];

// "the node that first made it known: the Variable assigned, or the iterable for a loop name. Unknown has none".
pub type First = Option<usize>;

// A type's number, and its first node.
#[derive(Clone, Copy)]
pub struct Binding {
    pub ty: usize,
    pub first: First,
}

// What one frame holds for a name: nothing, or a type's number. The sheet tells an absent name from one of type
// Unknown.
pub type Held = Option<usize>;

// ---- bindings

// What a name has that nothing is known of.
pub fn blank() -> Binding
    ensures { (result.ty ≡ 0) × (first_node result.first ≡ none) }
{
    Binding {
        ty: types::UNKNOWN,
        first: None,
    }
}

// `ty`, known since the old node, or since `node` where there is none: "an equal or Unknown assignment keeps the old
// node".
pub fn since(old: First, node: usize, ty: usize) -> Binding
    ensures { Known old node ty result }
{
    match old {
        Some(kept) => Binding {
            ty,
            first: Some(kept),
        },
        None if ty == types::UNKNOWN => blank(),
        None => Binding {
            ty,
            first: Some(node),
        },
    }
}

// A first node as a number: the node's + 1, or 0 for none; and back.
pub fn number_of(first: First) -> u32
    requires { FirstBelow cell_room first }
    ensures { (result ≡ first_number first) × (result ≤ cell_room) }
{
    match first {
        None => 0,
        Some(node) => node as u32 + 1,
    }
}

pub fn first_of(number: u32) -> First
    ensures { (first_node result ≡ node_from number) × (number ≤ cell_room → FirstBelow cell_room result) }
{
    counted(number)
}

// ---- cells

// What a half tells: none by 0, or the number before it.
fn counted(half: u32) -> Option<usize>
    ensures { half ≡ first_number result }
{
    half.checked_sub(1).map(|number| number as usize)
}

// The first node in a cell, and the cell of a binding.
fn first_in(cell: u32) -> First
    ensures { (first_node result ≡ node_from (node_in cell)) × FirstBelow cell_room result }
{
    first_of(cell / HALF)
}

fn cell_of(b: Binding) -> u32
    requires { (b.ty < cell_room) × FirstBelow cell_room b.first }
    ensures { (type_in result ≡ suc b.ty) × (node_from (node_in result) ≡ first_node b.first) }
{
    number_of(b.first) * HALF + (b.ty as u32 + 1)
}

// ---- frames

// What the newest frame itself holds for a name.
pub fn held_in(frames: &Frames, top: usize, name: usize) -> Held
    requires { (top < most_frames) × (name < most_names) }
    ensures { Holds frames.now top name result }
{
    counted(frames[top][name] % HALF)
}

// "A lookup shall give the type and the node that first made it known", "from the newest frame down; absent is
// Unknown".
pub fn lookup(frames: &Frames, top: usize, name: usize) -> Binding
    requires { (top < most_frames) × (name < most_names) }
    ensures { Looked frames.now top name result }
{
    for i in (0..=top).rev() {
        let cell = frames[i][name];
        if let Some(ty) = counted(cell % HALF) {
            return Binding {
                ty,
                first: first_in(cell),
            };
        }
    }
    blank()
}

// "Assignment writes the newest frame."
pub fn bind(frames: &mut Frames, top: usize, name: usize, b: Binding)
    requires top_lt_most_frames { (top < most_frames) × (name < most_names) }
    requires ty_lt_cell_room { (b.ty < cell_room) × FirstBelow cell_room b.first }
    ensures { Bound frames.old frames.new top name b }
{
    frames[top][name] = cell_of(b);
}

// A frame in which every name is absent.
pub fn clear(frames: &mut Frames, top: usize)
    requires { top < most_frames }
    ensures { frames.new ≡ set frames.old top absent_row }
{
    frames[top] = NO_NAMES;
}

// ---- merging

// Whether a branch that leaves `v` over `b` at entry tells of a type: "Whether a branch assigned a name still goes by
// type alone."
fn tells(b: u32, v: u32) -> bool
    ensures { result ≡ tells_cell b v }
{
    UNKNOWN < v % HALF && v % HALF != b % HALF
}

// What a name is first known as, after such a branch.
fn note(b: u32, v: u32, m: u32) -> u32
    ensures { result ≡ note_cell b v m }
{
    if tells(b, v) && m % HALF == ABSENT {
        v
    } else {
        m
    }
}

// Whether a name's types disagree, after such a branch.
fn clash(b: u32, v: u32, m: u32, c: bool) -> bool
    ensures { result ≡ clash_cell b v m c }
{
    c || (tells(b, v) && m % HALF != ABSENT && m % HALF != v % HALF)
}

// A branch told of: for each name what it is first known as and whether a later type differs.
pub fn note_branch(
    base: &Frames,
    top: usize,
    branch: &Frames,
    high: usize,
    merged: &mut Row,
    clashes: &mut Marks,
)
    requires top_lt_most_frames { (top < most_frames) × (high < most_frames) }
    requires merged_len { (length merged.old ≡ most_names) × (length clashes.old ≡ most_names) }
    ensures { Noted (get_or base.now top []) (get_or branch.now high [])
        merged.old clashes.old merged.new clashes.new most_names }
{
    for x in 0..MOST_NAMES {
        let b = base[top][x];
        let v = branch[high][x];
        let m = merged[x];
        merged[x] = note(b, v, m);
        clashes[x] = clash(b, v, m, clashes[x]);
    }
}

// The name whose types clash, and the first node "of the first type found".
#[derive(Clone, Copy)]
pub struct Disagreement {
    pub name: usize,
    pub first: First,
}

// How a merge ended: with every name, or at the first whose types clash, which is code 23.
pub type Merge = Result<(), Disagreement>;

// Writes the merged names in order, up to the first that clashes.
pub fn commit(frames: &mut Frames, top: usize, merged: &Row, clashes: &Marks) -> Merge
    requires { (top < most_frames) × (length frames.old ≡ most_frames) }
    ensures { Committed frames.old frames.new top
        merged.now clashes.now result }
{
    for x in 0..MOST_NAMES {
        let m = merged[x];
        if m % HALF != ABSENT {
            if clashes[x] {
                return Err(Disagreement {
                    name: x,
                    first: first_in(m),
                });
            }
            frames[top][x] = m;
        }
    }
    Ok(())
}
