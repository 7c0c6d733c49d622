// The public face: an image checked, a sheet read, a sheet written again. Nothing is asked of the caller, and each
// answer is a Result whose numbers `specs/Answers.antt` gives.
#![tactic(auto)]

ghost use Rattle.std.specs.Prelude.{◌≡◌, length};
ghost use Rattle.meaning.specs.Limits.{most_nodes};
ghost use Rattle.meaning.specs.Image.{node_count, nodes_from, nodes_of};
ghost use Rattle.meaning.specs.Frames.{newest};
ghost use Rattle.meaning.specs.Sheet.{sheet_of};
ghost use Rattle.meaning.specs.Answer.{answer, written, read_answer};
ghost use Rattle.meaning.proofs.Faults.{Headed, Sound};
ghost use Rattle.meaning.proofs.Listed.{listing_of};
ghost use Rattle.frames.specs.Env.{frames_of, first_node, FirstBelow};
ghost use Rattle.stmt.specs.Contract.{setting_if};
ghost use Rattle.checker.specs.declared.Refused.TheVariants.{Faulty};
ghost use Rattle.checker.specs.Answers.{setting_meant, SettingOf, Answers, AnswersByWalk, Wrote, Told};
ghost use Rattle.checker.specs.Answers.{numbers_of, numbers_in, bare_numbers};
ghost use Rattle.checker.specs.Answers.{reading_numbers, rewriting_numbers, rewritten, reply_means};
ghost use Rattle.checker.specs.Answers.{Replies, Relaid, sheet_numbers};
ghost use Rattle.state.specs.Notes.{tab_in, top_in};
ghost use Rattle.checker.specs.Steps.{Sized, Lent, Accepting, Refusing, second_place, refused_as};
ghost use Rattle.checker.specs.Steps.{first_start, first_end};

use frames::{EMPTY, First, Frames};
use image::{Fault, Numbers, areas, first_tree_set, judge, node_at};
use limits::MOST_NODES;
use names::list_names;
use sheet::list::NO_ENTRIES;
use sheet::{TABLE_CELLS, read};
use state::Notes;
use stmt::{Stop, typecheck_program};
use types::{CELLS, FRESH, STRUCTURED, start};

// The two settings (document 02). On a race weekend no typing error in a body of an If or a While may pass: strict
// returns what plain drops.
pub const PLAIN: u32 = 0;

pub const STRICT: u32 = 1;

#[derive(Clone, Copy, PartialEq, Eq)]
pub enum Setting {
    Plain,
    Strict,
}

impl TryFrom<u32> for Setting {
    type Error = Refused;

    ghost try_from_gives = { SettingOf };

    fn try_from(setting: u32) -> Result<Setting, Refused> {
        match setting {
            PLAIN => Ok(Setting::Plain),
            STRICT => Ok(Setting::Strict),
            _ => Err(Refused::NoSetting),
        }
    }
}

impl Setting {
    fn is_plain(self) -> bool
        ensures { setting_if result ≡ setting_meant self }
    {
        matches!(self, Setting::Plain)
    }
}

// A typing refusal: its code, 20 to 50, its node with its span, and the length of its message, 0 if that did not fit.
// For 25 and 23, the second span is that of the node which first made the old type known; for every other code, 0,0.
#[derive(Clone, Copy, PartialEq, Eq)]
pub struct Refusal {
    pub code: u32,
    pub place: usize,
    pub begins: u32,
    pub ends: u32,
    pub second_begins: u32,
    pub second_ends: u32,
    pub message: usize,
}

// 1 to 8, as the image's reader judged; 9 with the Def; 10; 13; 14 with the first TreeSet; or a typing refusal.
#[derive(Clone, Copy, PartialEq, Eq)]
pub enum Refused {
    Faulty(Fault),
    NinthFrame(usize),
    ShortBuffer,
    NoSetting,
    Retired(usize),
    Typing(Refusal),
}

impl From<Fault> for Refused {
    ghost from_gives = { λ f e. e ≡ Faulty f };

    fn from(f: Fault) -> Refused {
        Refused::Faulty(f)
    }
}

// The sheet's length, for code 0; or why there is none.
pub type Answer = Result<usize, Refused>;

// ---- an accepted program

// Code 0 and the sheet of what the program lists, its module frame being the newest, or 10.
fn accept(image: &[u8], table: &[u16], notes: &Notes, frames: &Frames, sheet: &mut [u8]) -> Answer
    requires { Accepting image.now (tab_in table.now notes.now) frames.now (top_in notes.now) }
    ensures { Wrote (written (length sheet.old) (sheet_of (listing_of image.now (newest
        (frames_of (tab_in table.now notes.now) frames.now (top_in notes.now))))))
        result sheet.old sheet.new }
{
    let mut names = NO_ENTRIES;
    let count = list_names(image, frames, notes.top, &mut names);
    sheet::write(image, table, notes.counts, &names, count, sheet).ok_or(Refused::ShortBuffer)
}

// ---- a typing refusal

// A span as the image has it.
#[derive(Clone, Copy)]
struct Span {
    begins: u32,
    ends: u32,
}

// The span of a first node, and 0,0 where there is none.
fn span_of(image: &[u8], nodes: usize, first: First) -> Span
    requires headed { Headed image.now × (nodes ≡ nodes_from image.now) }
    requires first_below { FirstBelow (node_count image.now) first }
    ensures { (result.begins ≡ first_start (nodes_of image.now) (first_node first))
        × (result.ends ≡ first_end (nodes_of image.now) (first_node first)) }
{
    match first {
        None => Span { begins: 0, ends: 0 },
        Some(i) => {
            let node = node_at(image, nodes, i);
            Span {
                begins: node.begins,
                ends: node.ends,
            }
        }
    }
}

fn refuse(
    image: &[u8],
    nodes: usize,
    table: &[u16],
    notes: &Notes,
    first: First,
    message: &mut [u8],
) -> Answer
    requires refusing { Refusing image.now nodes (tab_in table.now notes.now) notes.now }
    requires points { first_node first ≡ second_place notes.now }
    ensures { Told (refused_as image.now (tab_in table.now notes.now) notes.now (length message.old))
        result message.old message.new }
{
    let (code, place) = (notes.code.unwrap(), notes.place);
    let node = node_at(image, nodes, place);
    let second = span_of(image, nodes, first);
    let length = message::write(
        image,
        table,
        notes.counts,
        code,
        notes.first,
        notes.second,
        message,
    );
    Err(Refused::Typing(Refusal {
        code,
        place,
        begins: node.begins,
        ends: node.ends,
        second_begins: second.begins,
        second_ends: second.ends,
        message: length,
    }))
}

// ---- the whole

// The walk's answer for a well-formed image, by a fresh table that has room for its nodes.
fn walk_in(
    image: &[u8],
    nodes: usize,
    table: &mut [u16],
    sheet: &mut [u8],
    message: &mut [u8],
    setting: Setting,
) -> Answer
    requires { Lent image.now nodes table.old }
    ensures { AnswersByWalk (setting_meant setting) image.now result
        sheet.old sheet.new message.old message.new }
{
    start(table);
    let mut frames = EMPTY;
    let w = typecheck_program(image, &mut frames, table, setting.is_plain());
    let end = w.end;
    match end {
        Ok(()) => accept(image, table, &w.notes, &frames, sheet),
        Err(Stop::Wrong) => refuse(image, nodes, table, &w.notes, w.first, message),
        Err(Stop::TooDeep) => Err(Refused::NinthFrame(w.notes.place)),
    }
}

// A filled array costs a store for each few cells, so that few nodes get a small table: room for the plain types and
// one for each node.
const FEW: usize = 64;

const SOME: usize = 512;

const FEW_CELLS: usize = CELLS * (STRUCTURED + FEW);

const SOME_CELLS: usize = CELLS * (STRUCTURED + SOME);

const MANY_CELLS: usize = CELLS * (STRUCTURED + MOST_NODES);

// Each size has its own function, and so its own frame.
fn walk_sized<const ROOM: usize>(
    image: &[u8],
    nodes: usize,
    sheet: &mut [u8],
    message: &mut [u8],
    setting: Setting,
) -> Answer
    requires { Sized image.now nodes ROOM }
    ensures { AnswersByWalk (setting_meant setting) image.now result
        sheet.old sheet.new message.old message.new }
{
    let mut table = [FRESH; ROOM];
    walk_in(image, nodes, &mut table, sheet, message, setting)
}

// The walk's answer for a well-formed image.
fn walk_image(image: &[u8], sheet: &mut [u8], message: &mut [u8], setting: Setting) -> Answer
    requires { Sound image.now }
    ensures { AnswersByWalk (setting_meant setting) image.now result
        sheet.old sheet.new message.old message.new }
{
    let l = areas(image);
    if l.count <= FEW {
        walk_sized::<FEW_CELLS>(image, l.nodes, sheet, message, setting)
    } else if l.count <= SOME {
        walk_sized::<SOME_CELLS>(image, l.nodes, sheet, message, setting)
    } else {
        walk_sized::<MANY_CELLS>(image, l.nodes, sheet, message, setting)
    }
}

// Checks an image under a setting: the one answer, the sheet at the front of its buffer if the program is accepted and
// the sheet fits, the message at the front of its buffer if there is a typing refusal and the message fits, and no
// other byte changed. "14 at the first TreeSet node .. before 9 and all typing codes".
pub fn check(setting: u32, image: &[u8], sheet: &mut [u8], message: &mut [u8]) -> Answer
    ensures { Answers
        (answer setting image.now (length sheet.old) (length message.old))
        result sheet.old sheet.new message.old message.new }
{
    let setting = Setting::try_from(setting)?;
    judge(image)?;
    if let Some(i) = first_tree_set(image) {
        return Err(Refused::Retired(i));
    }
    walk_image(image, sheet, message, setting)
}

// ---- the type sheet

// The bytes are no sheet: 12.
#[derive(Clone, Copy, PartialEq, Eq)]
pub struct NoSheet;

// Whether the bytes are a sheet.
pub fn read_sheet(sheet: &[u8]) -> Result<(), NoSheet>
    ensures { reading_numbers result ≡ numbers_in (read_answer sheet.now) }
{
    let mut table = [FRESH; TABLE_CELLS];
    let mut names = NO_ENTRIES;
    match read(sheet, &mut table, &mut names) {
        Some(_) => Ok(()),
        None => Err(NoSheet),
    }
}

// Why no sheet was written: 10, or 12.
#[derive(Clone, Copy, PartialEq, Eq)]
pub enum Unwritten {
    NoRoom,
    NotRead,
}

// Reads a sheet and writes what was read with the check's own writer: the same bytes, if they fit. It tells how many.
pub fn write_sheet(sheet: &[u8], out: &mut [u8]) -> Result<usize, Unwritten>
    ensures { Relaid (rewritten sheet.now (length out.old))
        (rewriting_numbers result) out.old out.new }
{
    let mut table = [FRESH; TABLE_CELLS];
    let mut names = NO_ENTRIES;
    let Some(r) = read(sheet, &mut table, &mut names) else {
        return Err(Unwritten::NotRead);
    };
    sheet::write(sheet, &table, r.counts, &names, r.names, out).ok_or(Unwritten::NoRoom)
}

// ---- for C and Rust: the static library `checker_c` exports these

// An answer in the scope's numbers.
#[repr(C)]
#[derive(Clone, Copy)]
pub struct Reply {
    pub code: u32,
    pub span_start: u32,
    pub span_end: u32,
    pub second_start: u32,
    pub second_end: u32,
    pub place: usize,
    pub sheet_length: usize,
    pub message_length: usize,
}

// The codes that no crate below names.
const NINTH_FRAME: u32 = 9;

pub const SHORT_BUFFER: u32 = 10;

pub const NO_SHEET: u32 = 12;

const NO_SETTING: u32 = 13;

const RETIRED: u32 = 14;

// Code 0, and nothing told.
const NOTHING: Reply = Reply {
    code: 0,
    span_start: 0,
    span_end: 0,
    second_start: 0,
    second_end: 0,
    place: 0,
    sheet_length: 0,
    message_length: 0,
};

// Code 0, with the length of the sheet.
fn with_sheet(length: usize) -> Reply
    ensures { reply_means result ≡ sheet_numbers length }
{
    Reply {
        sheet_length: length,
        ..NOTHING
    }
}

// A code with a place, and no spans.
fn bare(code: u32, place: usize) -> Reply
    ensures { reply_means result ≡ bare_numbers code place }
{
    Reply {
        code,
        place,
        ..NOTHING
    }
}

// By the codes of document 01, and of document 02 the two before the last.
pub fn replied(a: Answer) -> Reply
    ensures { reply_means result ≡ numbers_of a }
{
    match a {
        Ok(n) => with_sheet(n),
        Err(Refused::Faulty(f)) => {
            let n = Numbers::from(f);
            bare(n.code, n.place)
        }
        Err(Refused::NinthFrame(i)) => bare(NINTH_FRAME, i),
        Err(Refused::ShortBuffer) => bare(SHORT_BUFFER, 0),
        Err(Refused::NoSetting) => bare(NO_SETTING, 0),
        Err(Refused::Retired(i)) => bare(RETIRED, i),
        Err(Refused::Typing(r)) => Reply {
            code: r.code,
            span_start: r.begins,
            span_end: r.ends,
            second_start: r.second_begins,
            second_end: r.second_ends,
            place: r.place,
            message_length: r.message,
            ..NOTHING
        },
    }
}

// `check` for other languages.
pub fn cablebirch_check(setting: u32, image: &[u8], sheet: &mut [u8], message: &mut [u8]) -> Reply
    ensures { Replies
        (answer setting image.now (length sheet.old) (length message.old))
        (reply_means result) sheet.old sheet.new message.old message.new }
{
    replied(check(setting, image, sheet, message))
}

// `read_sheet` for other languages: 0 or 12.
pub fn cablebirch_read_sheet(sheet: &[u8]) -> u32
    ensures { result ≡ (read_answer sheet.now).code }
{
    match read_sheet(sheet) {
        Ok(()) => 0,
        Err(NoSheet) => NO_SHEET,
    }
}

fn relaid(r: Result<usize, Unwritten>) -> Reply
    ensures { reply_means result ≡ rewriting_numbers r }
{
    match r {
        Ok(n) => with_sheet(n),
        Err(Unwritten::NoRoom) => bare(SHORT_BUFFER, 0),
        Err(Unwritten::NotRead) => bare(NO_SHEET, 0),
    }
}

// `write_sheet` for other languages: 0, 10 or 12.
pub fn cablebirch_write_sheet(sheet: &[u8], out: &mut [u8]) -> Reply
    ensures { Relaid (rewritten sheet.now (length out.old))
        (reply_means result) out.old out.new }
{
    relaid(write_sheet(sheet, out))
}
