// The walk over the statements: T's tc_stmt and typecheck_program.
// A statement that cannot need a frame answers `state::Outcome`, and one that can `End`; what was refused, and where,
// is noted. The notes also have the counts of the table, the return type so far and the newest frame's row.
// There is one walk for both settings of document 02: `How` goes with every statement, and where it is not plain, the
// setting is strict.
#![tactic(auto)]

ghost use Rattle.std.specs.Prelude.{◌≡◌};
ghost use Rattle.meaning.specs.Base.{test◌then◌else◌};
ghost use Rattle.codes.specs.Codes.{code_number};
ghost use Rattle.types.specs.Table.{tab};
ghost use Rattle.frames.specs.Env.{first_node};
ghost use Rattle.state.specs.Notes.{code_in, places_in, first_in, second_in, since_in, tab_in, top_in};
ghost use Rattle.state.specs.Answer.{Settled};
ghost use Rattle.state.specs.Lent.{lent};
ghost use Rattle.targets.specs.Ending.{first_at};
ghost use Rattle.stmt.specs.declared.Stop.TheVariants.{Wrong};
ghost use Rattle.stmt.specs.Contract.{setting_if, condition_at, assigned_at, end_code, Started, Refuses, Ran};
ghost use Rattle.stmt.specs.Clauses.{Checkable, Paired, Returnable, Simple, Walkable, OfKind, InIf, AtArm, AtParams};
ghost use Rattle.stmt.specs.Clauses.{Ends, Iterates, Returns, ActsEither, Enters, AfterArm};
ghost use Rattle.stmt.specs.Clauses.{WalksStmt, WalksBlock, Acts, WalksArm};

use codes::Code;
use expr::tc_expr;
use frames::{First, Frames, NO_NAMES, bind, blank, clear, commit, note_branch, since};
use image::{Cursor, kinds};
use limits::{DEEPEST, MOST_FRAMES, MOST_NAMES, MOST_NODES};
use state::{Noted, Notes, Outcome, Typed, Walk};
use targets::tc_assign_target;
use types;
use types::{Counts, agreed, element_of};

// The row of a frame that has no room for one more.
const LAST_FRAME: usize = MOST_FRAMES - 1;

// The levels that are left below the module's Block.
const BELOW_MODULE: usize = DEEPEST - 1;

// A branch of an If has a condition and a Block; the last may be a Block alone.
const ARM: usize = 2;

// The notes of a walk that starts: a table has the plain types alone, and a return type is Unknown.
const NOTHING: Notes = Notes {
    counts: Counts {
        types: types::STRUCTURED,
        elements: 0,
    },
    code: None,
    place: 0,
    first: 0,
    second: 0,
    since: None,
    returns: types::UNKNOWN,
    top: 0,
};

// What a new stack is filled with: filling with 0 is slow.
const FRESH: u16 = 1;

// Why the walk of a statement stopped, in the words of `meaning/specs/Walk`: a typing refusal, or a Def that needs a
// ninth frame, which ends the walk "even in a body whose errors are dropped". What was refused is noted.
#[derive(Clone, Copy, PartialEq, Eq)]
pub enum Stop {
    Wrong,
    TooDeep,
}

pub type End = Result<(), Stop>;

impl From<Noted> for Stop {
    ghost from_gives = { λ _ e. e ≡ Wrong };

    fn from(_noted: Noted) -> Stop {
        Stop::Wrong
    }
}

// How the statements of a body are walked: inside a loop or not, their typing errors dropped or the first returned, and
// under plain or strict.
#[derive(Clone, Copy)]
struct How {
    looped: bool,
    drops: bool,
    plain: bool,
}

// ---- statements without a body

// "A condition must be Bool itself".
fn ensure_bool(
    image: &[u8],
    here: Cursor,
    rows: &Frames,
    table: &mut [u16],
    w: &mut Walk,
    depth: usize,
) -> Outcome
    requires { Checkable image.now here depth (lent rows.now table.old w.old) }
    ensures { Ends image.now here result (lent rows.now table.old w.old) (lent rows.now table.new w.new)
        (condition_at image.now depth here.at) }
{
    let ty = tc_expr(image, here, rows, w.notes.top, table, w, 0, depth)?;
    if ty != types::BOOL {
        return Err(w.notes.refuse(Code::Condition, here.at, 0, 0));
    }
    Ok(())
}

// An Assign: its value, the second child, is checked before its target.
fn assignment(
    image: &[u8],
    here: Cursor,
    rows: &mut Frames,
    table: &mut [u16],
    w: &mut Walk,
    depth: usize,
) -> Outcome
    requires { Paired image.now here depth (lent rows.old table.old w.old) }
    ensures { Ends image.now here result (lent rows.old table.old w.old) (lent rows.new table.new w.new)
        (assigned_at image.now depth here.at) }
{
    let top = w.notes.top;
    let target = here.next(image).cursor;
    let value = target.over(image).cursor;
    let ty = tc_expr(image, value, rows, top, table, w, 0, depth)?;
    tc_assign_target(image, target, rows, top, table, w, ty, depth)
}

// A Return of the value at the cursor.
fn give(
    image: &[u8],
    here: Cursor,
    rows: &Frames,
    table: &mut [u16],
    w: &mut Walk,
    depth: usize,
) -> Outcome
    requires { Returnable image.now here depth (lent rows.now table.old w.old) }
    ensures { Returns image.now here depth result (lent rows.now table.old w.old) (lent rows.now table.new w.new) }
{
    let ty = tc_expr(image, here, rows, w.notes.top, table, w, 0, depth)?;
    let old = w.notes.returns;
    let Some(both) = agreed(old, ty) else {
        return Err(w.notes.refuse(Code::InconsistentReturn, here.at, old, ty));
    };
    w.notes.returns = both;
    Ok(())
}

// A Break or Continue: outside a loop it is refused by the code.
fn outside(notes: &mut Notes, code: Code, place: usize, looped: bool) -> Outcome
    ensures { Settled notes.old notes.new result tt (test looped then 0 else code_number code) place 0 0 }
{
    if looped {
        Ok(())
    } else {
        Err(notes.refuse(code, place, 0, 0))
    }
}

// A statement without a body; `depth` is left for its children.
fn simple(
    image: &[u8],
    here: Cursor,
    rows: &mut Frames,
    table: &mut [u16],
    w: &mut Walk,
    depth: usize,
    looped: bool,
) -> Outcome
    requires { Simple image.now here depth (lent rows.old table.old w.old) }
    ensures { ActsEither image.now here depth looped result
        (lent rows.old table.old w.old) (lent rows.new table.new w.new) }
{
    let read = here.next(image);
    let first = read.cursor;
    match read.node.kind {
        kinds::BREAK => outside(&mut w.notes, Code::Break, here.at, looped),
        kinds::CONTINUE => outside(&mut w.notes, Code::Continue, here.at, looped),
        kinds::ASSIGN => assignment(image, here, rows, table, w, depth),
        kinds::EXPR => {
            tc_expr(image, first, rows, w.notes.top, table, w, 0, depth)?;
            Ok(())
        }
        kinds::RETURN => give(image, first, rows, table, w, depth),
        _ => Ok(()),
    }
}

// The n Params from the cursor on, as Unknown in the row `top`; and the cursor behind them.
fn parameters(image: &[u8], from: Cursor, rows: &mut Frames, top: usize, n: usize) -> Cursor
    requires { AtParams image.now from top n }
    ensures { Enters image.now from top n result rows.old rows.new }
{
    let mut next = from;
    for _ in 0..n {
        let passed = next.over(image);
        bind(rows, top, passed.node.arg as usize, blank());
        next = passed.cursor;
    }
    next
}

// ---- statements with a body

// What a walk over the value at the cursor gives: code 24 where it gives nothing.
fn elements(
    image: &[u8],
    here: Cursor,
    rows: &Frames,
    table: &mut [u16],
    w: &mut Walk,
    depth: usize,
) -> Typed
    requires { Checkable image.now here depth (lent rows.now table.old w.old) }
    ensures { Iterates image.now here depth result (lent rows.now table.old w.old) (lent rows.now table.new w.new) }
{
    let ty = tc_expr(image, here, rows, w.notes.top, table, w, 0, depth)?;
    match element_of(table, ty) {
        Some(element) => Ok(element),
        None => Err(w.notes.refuse(Code::NotIterable, here.at, ty, 0)),
    }
}

// The cursor moved over the branch that it stands at, of `left` nodes of an If.
fn after_arm(image: &[u8], here: Cursor, left: usize) -> Cursor
    requires { AtArm image.now here left }
    ensures { AfterArm image.now here left result }
{
    let behind = here.over(image).cursor;
    if 1 < left {
        return behind.over(image).cursor;
    }
    behind
}

// The statement at the cursor, at most `depth` deep.
#[cycle(tc_stmt)]
fn tc_stmt(
    image: &[u8],
    here: Cursor,
    rows: &mut Frames,
    table: &mut [u16],
    w: &mut Walk,
    depth: usize,
    how: How,
) -> End
    requires { Walkable image.now here depth (lent rows.old table.old w.old) }
    ensures { WalksStmt image.now here depth how result
        (lent rows.old table.old w.old) (lent rows.new table.new w.new) }
{
    let d = depth - 1;
    match here.next(image).node.kind {
        kinds::IF => choices(image, here, rows, table, w, d, how),
        kinds::WHILE => repeat(image, here, rows, table, w, d, how),
        kinds::FOR => each(image, here, rows, table, w, d, how),
        kinds::DEF => define(image, here, rows, table, w, d, how),
        _ => {
            simple(image, here, rows, table, w, d, how.looped)?;
            Ok(())
        }
    }
}

// The Block at the cursor.
#[cycle(tc_stmt)]
fn block(
    image: &[u8],
    here: Cursor,
    rows: &mut Frames,
    table: &mut [u16],
    w: &mut Walk,
    depth: usize,
    how: How,
) -> End
    requires { Walkable image.now here depth (lent rows.old table.old w.old) }
    ensures { WalksBlock image.now here depth how result
        (lent rows.old table.old w.old) (lent rows.new table.new w.new) }
{
    let read = here.next(image);
    let mut next = read.cursor;
    for _ in 0..read.node.children {
        match tc_stmt(image, next, rows, table, w, depth - 1, how) {
            Ok(()) => {}
            Err(Stop::Wrong) => {
                if !how.drops {
                    return Err(Stop::Wrong);
                }
            }
            Err(Stop::TooDeep) => return Err(Stop::TooDeep),
        }
        next = next.over(image).cursor;
    }
    Ok(())
}

// An If: its branches, each on a copy of the frames, and then the merge, which is refused at the first condition and
// points at "the first type found" too.
#[cycle(tc_stmt)]
fn choices(
    image: &[u8],
    here: Cursor,
    rows: &mut Frames,
    table: &mut [u16],
    w: &mut Walk,
    depth: usize,
    how: How,
) -> End
    requires { OfKind 8 image.now here depth (lent rows.old table.old w.old) }
    ensures { Acts image.now here depth how result
        (lent rows.old table.old w.old) (lent rows.new table.new w.new) }
{
    let mut merged = NO_NAMES;
    let mut clashes = [false; MOST_NAMES];
    let read = here.next(image);
    let condition = read.cursor;
    let top = w.notes.top;
    let mut next = condition;
    let n = read.node.children as usize;
    for k in 0..n.div_ceil(ARM) {
        let left = n - ARM * k;
        let mut branch = *rows;
        let end = one_arm(image, next, &mut branch, table, w, left, depth, how);
        let high = w.notes.top;
        w.notes.top = top;
        end?;
        note_branch(rows, top, &branch, high, &mut merged, &mut clashes);
        next = after_arm(image, next, left);
    }
    match commit(rows, top, &merged, &clashes) {
        Ok(()) => Ok(()),
        Err(found) => {
            let code = Code::IncompatibleBranches;
            let noted = w
                .notes
                .conflict(code, condition.at, found.first, found.name, 0);
            Err(Stop::from(noted))
        }
    }
}

// A branch, of `left` nodes of an If: its condition, if it has one, and its Block, whose errors plain drops.
#[cycle(tc_stmt)]
fn one_arm(
    image: &[u8],
    here: Cursor,
    rows: &mut Frames,
    table: &mut [u16],
    w: &mut Walk,
    left: usize,
    depth: usize,
    how: How,
) -> End
    requires { InIf image.now here left depth (lent rows.old table.old w.old) }
    ensures { WalksArm image.now here left depth how result
        (lent rows.old table.old w.old) (lent rows.new table.new w.new) }
{
    let how = How {
        drops: how.plain,
        ..how
    };
    if 1 < left {
        ensure_bool(image, here, rows, table, w, depth)?;
        let body = here.over(image).cursor;
        return block(image, body, rows, table, w, depth, how);
    }
    block(image, here, rows, table, w, depth, how)
}

// A Def: its body on a frame more, which a failure leaves.
#[cycle(tc_stmt)]
fn define(
    image: &[u8],
    here: Cursor,
    rows: &mut Frames,
    table: &mut [u16],
    w: &mut Walk,
    depth: usize,
    how: How,
) -> End
    requires { OfKind 11 image.now here depth (lent rows.old table.old w.old) }
    ensures { Acts image.now here depth how result
        (lent rows.old table.old w.old) (lent rows.new table.new w.new) }
{
    let top = w.notes.top;
    let returns = w.notes.returns;
    if LAST_FRAME <= top {
        w.notes = Notes {
            place: here.at,
            first: 0,
            second: 0,
            ..w.notes
        };
        return Err(Stop::TooDeep);
    }
    let read = here.next(image);
    let n = read.node.children as usize;
    clear(rows, top + 1);
    let body = parameters(image, read.cursor, rows, top + 1, n - 1);
    w.notes.top = top + 1;
    w.notes.returns = types::UNKNOWN;
    let how = How {
        looped: false,
        drops: false,
        ..how
    };
    let end = block(image, body, rows, table, w, depth, how);
    w.notes.returns = returns;
    end?;
    w.notes.top -= 1;
    Ok(())
}

// A For: its body on a copy of the frames, of which nothing stays; its errors are returned. The loop name is known
// since the iterable.
#[cycle(tc_stmt)]
fn each(
    image: &[u8],
    here: Cursor,
    rows: &Frames,
    table: &mut [u16],
    w: &mut Walk,
    depth: usize,
    how: How,
) -> End
    requires { OfKind 10 image.now here depth (lent rows.now table.old w.old) }
    ensures { Acts image.now here depth how result
        (lent rows.now table.old w.old) (lent rows.now table.new w.new) }
{
    let top = w.notes.top;
    let read = here.next(image);
    let iterable = read.cursor;
    let ty = elements(image, iterable, rows, table, w, depth)?;
    let mut inner = *rows;
    bind(
        &mut inner,
        top,
        read.node.arg as usize,
        since(None, iterable.at, ty),
    );
    let body = iterable.over(image).cursor;
    let how = How {
        looped: true,
        drops: false,
        ..how
    };
    let end = block(image, body, &mut inner, table, w, depth, how);
    w.notes.top = top;
    end
}

// A While: its body on a copy of the frames, of which nothing stays; plain drops its errors.
#[cycle(tc_stmt)]
fn repeat(
    image: &[u8],
    here: Cursor,
    rows: &Frames,
    table: &mut [u16],
    w: &mut Walk,
    depth: usize,
    how: How,
) -> End
    requires { OfKind 9 image.now here depth (lent rows.now table.old w.old) }
    ensures { Acts image.now here depth how result
        (lent rows.now table.old w.old) (lent rows.now table.new w.new) }
{
    let top = w.notes.top;
    let condition = here.next(image).cursor;
    ensure_bool(image, condition, rows, table, w, depth)?;
    let mut inner = *rows;
    let body = condition.over(image).cursor;
    let how = How {
        looped: true,
        drops: how.plain,
        ..how
    };
    let end = block(image, body, &mut inner, table, w, depth, how);
    w.notes.top = top;
    end
}

// ---- the program

// 25 and 23 "point at the first place too"; of every other code nothing is noted there.
pub fn first_place(notes: &Notes) -> First
    ensures { first_node result ≡ first_at (code_in notes.now) (since_in notes.now) }
{
    match notes.code? {
        codes::CANNOT_ASSIGN | codes::INCOMPATIBLE_BRANCHES => notes.since,
        _ => None,
    }
}

// The first place that an end points at: a refusal's alone has one.
fn place_of_end(end: End, notes: &Notes) -> First
    ensures { first_node result ≡ first_at (end_code end (code_in notes.now)) (since_in notes.now) }
{
    match end {
        Err(Stop::Wrong) => first_place(notes),
        Err(Stop::TooDeep) => None,
        Ok(()) => None,
    }
}

// How the whole walk ended, what was noted then, and the first place that the end points at.
#[derive(Clone, Copy)]
pub struct Walked {
    pub end: End,
    pub notes: Notes,
    pub first: First,
}

// The module's statements: errors are returned, and each has a return type of its own.
pub fn typecheck_program(
    image: &[u8],
    frames: &mut Frames,
    table: &mut [u16],
    plain: bool,
) -> Walked
    requires { Started image.now frames.old (tab table.old 8 0) }
    ensures ran { Ran image.now (setting_if plain) (tab table.old 8 0) (tab_in table.new result.notes)
        frames.new (top_in result.notes) (end_code result.end (code_in result.notes))
        (places_in result.notes) (first_in result.notes) (second_in result.notes) }
    ensures refuses { Refuses result.end (code_in result.notes) }
    ensures points { first_node result.first
        ≡ first_at (end_code result.end (code_in result.notes)) (since_in result.notes) }
{
    let mut w = Walk {
        notes: NOTHING,
        stack: [FRESH; MOST_NODES],
    };
    let how = How {
        looped: false,
        drops: false,
        plain,
    };
    let read = Cursor::first(image).next(image);
    let mut next = read.cursor;
    for _ in 0..read.node.children {
        w.notes.returns = types::UNKNOWN;
        let end = tc_stmt(image, next, frames, table, &mut w, BELOW_MODULE, how);
        if end.is_err() {
            return Walked {
                end,
                notes: w.notes,
                first: place_of_end(end, &w.notes),
            };
        }
        next = next.over(image).cursor;
    }
    Walked {
        end: Ok(()),
        notes: w.notes,
        first: place_of_end(Ok(()), &w.notes),
    }
}
