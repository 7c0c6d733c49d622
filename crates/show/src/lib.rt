// A sheet in words, for the people who approve it: its names with their types, and what changed between two sheets.
#![tactic(auto)]

ghost use Rattle.std.specs.Prelude.{◌≡◌, Some, not, [], ◌∷◌, ◌++◌, ◌+◌, ◌<◌, ◌≤◌, leb, length, take};
ghost use Rattle.meaning.specs.Limits.{longest_shown};
ghost use Rattle.meaning.specs.Base.{bytes};
ghost use Rattle.meaning.specs.Types.{text, same as same_type};
ghost use Rattle.meaning.specs.Sheet.{sheet_of};
ghost use Rattle.meaning.specs.Read.{entries_in};
ghost use Rattle.meaning.specs.Show.{dotted, shown, entry_text, entries_text, came, went, turned, changes_text};
ghost use Rattle.meaning.specs.Show.{changes as changes_of, in_words, show_answer, changes_answer};
ghost use Rattle.types.specs.Kinds.{kind_number};
ghost use Rattle.types.specs.Reading.{type_at};
ghost use Rattle.words.specs.Words.{Wrote};
ghost use Rattle.message.specs.Texts.{AllKnown};
ghost use Rattle.sheet.specs.Reading.{Reads};
ghost use Rattle.show.specs.Words.{Reads-prop, entry_of, largest_alone, retold, Follows, Ahead, Stepped};
ghost use Rattle.show.specs.Words.{telling_code, telling_length, Tells};

use limits::{
    LARGEST_CHANGES, LARGEST_SHEET, LARGEST_SHOW, LONGEST_NAME, LONGEST_SHOWN, MOST_NAMES,
    MOST_NODES,
};
use message::{measure, put_type};
use sheet::list::{NO_ENTRIES, NameList, length_of, start_of, type_of};
use sheet::records::NAME_RECORD;
use sheet::{ReadSheet, TABLE_CELLS, read};
use types::{FRESH, Kind, STRUCTURED, kind_of};
use words::{before, put, same, text as part_of_text};

// Why nothing was told: code 10 for a text that does not fit, 12 for what is no sheet.
#[derive(Clone, Copy)]
pub enum Untold {
    NoRoom,
    NoSheet,
}

// The length of the text that was told.
pub type Telling = Result<usize, Untold>;

// ---- a type

// Room for the length of each type's text.
const MOST_NUMBERS: usize = STRUCTURED + MOST_NODES;

// Whether the text of type i is shown whole. One more than the longest stands for every longer one.
fn is_short(table: &[u16], i: usize) -> bool
    requires { AllKnown table.now (i + 1) }
    ensures { result ≡ leb (length (text (type_at table.now i))) longest_shown }
{
    let mut lens = [1usize; MOST_NUMBERS];
    measure(table, i + 1, LONGEST_SHOWN + 1, &mut lens);
    lens[i] <= LONGEST_SHOWN
}

// What a type of this kind is shown as where it is too long.
fn dotted(kind: Kind) -> &'static [u8]
    ensures { result.now ≡ dotted (kind_number kind) }
{
    match kind {
        Kind::List => b"List(..)",
        Kind::Dict => b"Dict(..)",
        Kind::Tuple => b"Tuple(..)",
        Kind::MapIter => b"MapIter(..)",
        Kind::FilterIter => b"FilterIter(..)",
        _ => b"",
    }
}

fn put_shown(table: &[u16], i: usize, out: &mut [u8], at: usize) -> usize
    requires all_known { AllKnown table.now (i + 1) }
    requires i_in_bounds { at + length (shown (type_at table.now i)) ≤ length out.old }
    ensures { Wrote out.old at (shown (type_at table.now i)) out.new result }
{
    if is_short(table, i) {
        return put_type(table, i, out, at);
    }
    put(out, at, dotted(kind_of(table, i)))
}

// ---- a name with its type

// A sheet that was read: the table of its types, the list of its names, and how many there are of both.
#[derive(Clone, Copy)]
struct Opened<'a> {
    sheet: &'a [u8],
    table: &'a [u16],
    names: &'a NameList,
    read: ReadSheet,
    ghost reads: { Reads sheet.now (Some read) table.now names.now } by { Reads-prop },
}

impl<'a> Opened<'a> {
    fn name(&self, k: usize) -> &'a [u8]
        requires { k < self.now.read.names }
        ensures { result.now ≡ (entry_of self.now.sheet.now k).0 }
    {
        part_of_text(
            self.sheet,
            start_of(self.names, k),
            length_of(self.names, k),
        )
    }

    // The number of the type of name k in the sheet's table.
    fn type_of(&self, k: usize) -> usize
        requires { k < self.now.read.names }
        ensures known { AllKnown self.now.table.now (result + 1) }
        ensures means { type_at self.now.table.now result ≡ (entry_of self.now.sheet.now k).1 }
    {
        type_of(self.names, k)
    }

    // As `step: Int`.
    fn put_entry(&self, k: usize, out: &mut [u8], at: usize) -> usize
        requires k_bound { k < self.now.read.names }
        requires in_bounds { at + length (entry_text (entry_of self.now.sheet.now k)) ≤ length out.old }
        ensures { Wrote out.old at (entry_text (entry_of self.now.sheet.now k)) out.new result }
    {
        let colon = put(out, at, self.name(k));
        let ty = put(out, colon, b": ");
        put_shown(self.table, self.type_of(k), out, ty)
    }

    // All names, a line each.
    fn put_entries(&self, out: &mut [u8]) -> usize
        requires { length (entries_text (entries_in self.now.sheet.now)) ≤ length out.old }
        ensures { Wrote out.old 0 (entries_text (entries_in self.now.sheet.now)) out.new result }
    {
        let mut at = 0;
        for k in 0..self.read.names {
            let end = self.put_entry(k, out, at);
            at = put(out, end, b"\n");
        }
        at
    }

    // Name k with what became of it: `+ mode: String`, `- laps: List(Int)`.
    fn put_signed(&self, sign: &[u8], k: usize, out: &mut [u8], at: usize) -> usize
        requires k_bound { k < self.now.read.names }
        requires in_bounds { at
            + length (sign.now ++ entry_text (entry_of self.now.sheet.now k) ++ bytes "\n") ≤ length out.old }
        ensures { Wrote out.old at
            (sign.now ++ entry_text (entry_of self.now.sheet.now k) ++ bytes "\n") out.new result }
    {
        let entry = put(out, at, sign);
        let end = self.put_entry(k, out, entry);
        put(out, end, b"\n")
    }

    // The sheet of name k alone. Returns its length.
    fn write_alone(&self, k: usize, out: &mut [u8]) -> usize
        requires k_bound { k < self.now.read.names }
        requires out_len { length out.old ≡ largest_alone }
        ensures out_after { take result out.new ≡ sheet_of (entry_of self.now.sheet.now k ∷ []) }
        ensures upper_bound { result ≤ length out.new }
    {
        let mut alone = NO_ENTRIES;
        alone[0] = self.names[k];
        sheet::write(self.sheet, self.table, self.read.counts, &alone, 1, out).unwrap()
    }
}

// ---- what changed

// Name i of the old sheet with the type that it has in the new one, as name j: `~ step: Int -> Float`.
fn put_turned(old: &Opened, i: usize, new: &Opened, j: usize, out: &mut [u8], at: usize) -> usize
    requires i_bound { i < old.now.read.names }
    requires j_bound { j < new.now.read.names }
    requires in_bounds { at + length (retold (entry_of old.now.sheet.now i) (entry_of new.now.sheet.now j).1)
        ≤ length out.old }
    ensures { Wrote out.old at
        (retold (entry_of old.now.sheet.now i) (entry_of new.now.sheet.now j).1)
        out.new result }
{
    let entry = put(out, at, b"~ ");
    let arrow = old.put_entry(i, out, entry);
    let ty = put(out, arrow, b" -> ");
    let end = put_shown(new.table, new.type_of(j), out, ty);
    put(out, end, b"\n")
}

// No sheet of one name is longer: the largest of all has a record and a text for each other name besides.
const LARGEST_ALONE: usize = LARGEST_SHEET - (MOST_NAMES - 1) * (NAME_RECORD + LONGEST_NAME);

// Whether a name that both sheets have turned from one type to another. Numbers of two tables tell nothing of it: the
// types are equal exactly when the sheets of the name alone are.
fn has_turned(old: &Opened, i: usize, new: &Opened, j: usize) -> bool
    requires i_bound { i < old.now.read.names }
    requires j_bound { j < new.now.read.names }
    requires one_name { (entry_of old.now.sheet.now i).0 ≡ (entry_of new.now.sheet.now j).0 }
    ensures { result ≡ not (same_type (entry_of old.now.sheet.now i).1
        (entry_of new.now.sheet.now j).1) }
{
    let mut was = [0u8; LARGEST_ALONE];
    let mut is = [0u8; LARGEST_ALONE];
    let n = old.write_alone(i, &mut was);
    let m = new.write_alone(j, &mut is);
    !same(part_of_text(&was, 0, n), part_of_text(&is, 0, m))
}

// Which line comes next: of a name that came, of one that went, or of one that both sheets have.
#[derive(Clone, Copy)]
enum Next {
    Came,
    Went,
    Both,
}

// By the order of the first names that are left: the names of both sheets ascend.
fn next_of(old: &Opened, i: usize, new: &Opened, j: usize) -> Next
    requires { (i ≤ old.now.read.names) × (j ≤ new.now.read.names)
        × (i + j < old.now.read.names + new.now.read.names) }
    ensures { Follows (entries_in old.now.sheet.now) (entries_in new.now.sheet.now) i j result }
{
    if i == old.read.names {
        return Next::Came;
    }
    if j == new.read.names {
        return Next::Went;
    }
    let was = old.name(i);
    let is = new.name(j);
    if before(is, was) {
        return Next::Came;
    }
    if before(was, is) {
        return Next::Went;
    }
    Next::Both
}

// How many names of the old sheet and of the new one are told of, and where the text goes on.
#[derive(Clone, Copy)]
struct Place {
    old: usize,
    new: usize,
    at: usize,
}

// Tells of the next name: nothing, if both sheets have it with one type.
fn tell_next(old: &Opened, new: &Opened, from: Place, out: &mut [u8]) -> Place
    requires { Ahead (entries_in old.now.sheet.now) (entries_in new.now.sheet.now) from out.old }
    ensures { Stepped (entries_in old.now.sheet.now) (entries_in new.now.sheet.now) from result
        out.old out.new }
{
    let i = from.old;
    let j = from.new;
    match next_of(old, i, new, j) {
        Next::Came => Place {
            new: j + 1,
            at: new.put_signed(b"+ ", j, out, from.at),
            ..from
        },
        Next::Went => Place {
            old: i + 1,
            at: old.put_signed(b"- ", i, out, from.at),
            ..from
        },
        Next::Both => {
            let next = Place {
                old: i + 1,
                new: j + 1,
                ..from
            };
            if !has_turned(old, i, new, j) {
                return next;
            }
            Place {
                at: put_turned(old, i, new, j, out, from.at),
                ..next
            }
        }
    }
}

// All that changed, a line for each name that differs.
fn put_changes(old: &Opened, new: &Opened, out: &mut [u8]) -> usize
    requires { length (changes_text (changes_of (entries_in old.now.sheet.now) (entries_in new.now.sheet.now)))
        ≤ length out.old }
    ensures { Wrote out.old 0
        (changes_text (changes_of (entries_in old.now.sheet.now) (entries_in new.now.sheet.now)))
        out.new result }
{
    let all = old.read.names + new.read.names;
    let mut place = Place {
        old: 0,
        new: 0,
        at: 0,
    };
    while place.old + place.new < all {
        place = tell_next(old, new, place, out);
    }
    place.at
}

// ---- the whole

// Hands out the first n bytes of a text, if they fit.
fn deliver(text: &[u8], n: usize, out: &mut [u8]) -> Telling
    requires { n ≤ length text.now }
    ensures { Tells (in_words (length out.old) (take n text.now))
        (telling_code result) (telling_length result) out.old out.new }
{
    if out.len() < n {
        return Err(Untold::NoRoom);
    }
    Ok(put(out, 0, part_of_text(text, 0, n)))
}

// A sheet's names with their types, a line each in byte order, at the front of `out` if they fit. On a refusal no byte
// changes.
pub fn show(sheet: &[u8], out: &mut [u8]) -> Telling
    ensures { Tells (show_answer sheet.now (length out.old))
        (telling_code result) (telling_length result) out.old out.new }
{
    let mut table = [FRESH; TABLE_CELLS];
    let mut names = NO_ENTRIES;
    let Some(read) = read(sheet, &mut table, &mut names) else {
        return Err(Untold::NoSheet);
    };
    let opened = Opened {
        sheet,
        table: &table,
        names: &names,
        read,
    };
    let mut text = [0u8; LARGEST_SHOW];
    let n = opened.put_entries(&mut text);
    deliver(&text, n, out)
}

// What changed from one sheet to another, a line for each name that differs, in byte order, at the front of `out` if it
// fits. On a refusal no byte changes.
pub fn changes(old: &[u8], new: &[u8], out: &mut [u8]) -> Telling
    ensures { Tells (changes_answer old.now new.now (length out.old))
        (telling_code result) (telling_length result) out.old out.new }
{
    let mut old_table = [FRESH; TABLE_CELLS];
    let mut old_names = NO_ENTRIES;
    let Some(old_read) = read(old, &mut old_table, &mut old_names) else {
        return Err(Untold::NoSheet);
    };
    let was = Opened {
        sheet: old,
        table: &old_table,
        names: &old_names,
        read: old_read,
    };
    let mut new_table = [FRESH; TABLE_CELLS];
    let mut new_names = NO_ENTRIES;
    let Some(new_read) = read(new, &mut new_table, &mut new_names) else {
        return Err(Untold::NoSheet);
    };
    let is = Opened {
        sheet: new,
        table: &new_table,
        names: &new_names,
        read: new_read,
    };
    let mut text = [0u8; LARGEST_CHANGES];
    let n = put_changes(&was, &is, &mut text);
    deliver(&text, n, out)
}
