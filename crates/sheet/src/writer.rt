// The sheet's writer: the types of the names by one walk, then area after area.
ghost use Rattle.std.specs.Prelude.{◌≡◌, [], ◌∷◌, map, length, get_or, ℕ, ◌+◌, ◌*◌, ◌≤◌, ◌<◌};
ghost use Rattle.meaning.specs.Base.{words};
ghost use Rattle.meaning.specs.Limits.{most_names, most_text, most_types};
ghost use Rattle.meaning.specs.Sheet.{elements_in, sheet_of};
ghost use Rattle.types.specs.Table.{most_numbers, capacity, tab, denote};
ghost use Rattle.sheet.specs.Listing.{Listing, entry_of, listed, Wrote};
ghost use Rattle.sheet.specs.Counting.{most_written};
ghost use Rattle.sheet.specs.Marks.{type_met, Completing, completed, Marked, tab_of};
ghost use Rattle.sheet.specs.Opening.{New, OpenRoom, Visiting, Visited, Stepping, Stepped};
ghost use Rattle.sheet.specs.Writing.{elements_met, Meeting, MetAll, ElementsIn, Short, listed_size, NumberOf};
ghost use Rattle.sheet.specs.Writing.{Put, Met, record_bytes, element_bytes, types_bytes, elements_bytes, NamesFit};
ghost use Rattle.sheet.specs.Writing.{NamesPut, TextsFit, listed_texts, header_bytes, Filling};

use crate::header;
use crate::layout::Areas;
use crate::list::{ListedName, NameList};
use crate::records::{ELEMENT, NAME_RECORD, SECOND_WORD, THIRD_WORD, TYPE_RECORD};
use limits::MOST_TYPES;
use types::{Counts, FRESH, Kind, STRUCTURED, kind_of, part_at, part_of, parts_of, second_of};
use words::{put, put_word, text};

// A mark of a type that has no number yet: no structured type has this one. It is what the marks are filled with.
const UNMET: u16 = FRESH;

// The marks of the walk over the types: for each number of the table the type's number in the sheet; the table's
// numbers in the sheet's order, and how many these are; and the table's counts. The arrays lie outside, since a struct
// is made by copying what it holds.
#[derive(Drop)]
struct Marks<'a> {
    numbers: &'a mut [u16],
    order: &'a mut [u16],
    met: usize,
    counts: Counts,
}

// A type that the walk has begun and not completed, and the place of its next part. A part has a lower number than the
// whole, so no more are open than the table has structured types.
#[derive(Clone, Copy)]
struct Open {
    ty: u16,
    next: u16,
}

const NONE_OPEN: Open = Open {
    ty: FRESH,
    next: FRESH,
};

// Most tables have few types.
const FEW: usize = 64;

// ---- the walk: parts left to right and before the whole, each type once

impl Marks<'_> {
    // Gives i the next number of the sheet, unless it has one.
    fn complete(&mut self, i: usize)
        requires { Completing self.old i }
        ensures { self.new ≡ completed self.old i }
    {
        if self.numbers[i] == UNMET {
            self.numbers[i] = (STRUCTURED + self.met) as u16;
            self.order[self.met] = i as u16;
            self.met += 1;
        }
    }

    // Whether type i is to be given a number: a plain type never is.
    fn is_new(&self, i: usize) -> bool
        requires { i < length self.now.numbers.now }
        ensures { New self.now i result }
    {
        STRUCTURED <= i && self.numbers[i] == UNMET
    }

    // The number in the sheet of type i, which is plain or was met.
    fn number_of(&self, i: usize) -> usize
        requires { i < length self.now.numbers.now }
        ensures number_of { NumberOf self.now i result }
        ensures upper_bound { result < 65536 }
    {
        if i < STRUCTURED {
            return i;
        }
        usize::from(self.numbers[i])
    }

    // The table's number of type k of the sheet.
    fn type_at(&self, k: usize) -> usize
        requires { k < length self.now.order.now }
        ensures { result ≡ type_met self.now k }
    {
        usize::from(self.order[k])
    }
}

// One step of the walk, at the innermost of the open types: it is completed if no part is left. A part that is to be
// given a number is begun, and looked at again once it has one; any other is passed. Returns how many are open then.
fn step(table: &[u16], marks: &mut Marks, path: &mut [Open], depth: usize) -> usize
    requires { Stepping table.now marks.old path.old depth }
    ensures { Stepped table.now marks.old marks.new
        path.old path.new depth result }
{
    let k = depth - 1;
    let i = usize::from(path[k].ty);
    let j = usize::from(path[k].next);
    if j == parts_of(table, i) {
        marks.complete(i);
        return k;
    }
    let p = part_at(table, i, j);
    if marks.is_new(p) {
        path[depth] = Open {
            ty: p as u16,
            next: 0,
        };
        return depth + 1;
    }
    path[k].next += 1;
    depth
}

// Gives type i and what it is made of their numbers. Types nest up to MOST_TYPES deep: calls would need a frame for
// each, so the open ones wait in an array.
fn visit(table: &[u16], i: usize, marks: &mut Marks, path: &mut [Open])
    requires { Visiting table.now marks.old path.old i }
    ensures visited { Visited table.now marks.old marks.new i }
    ensures path_len_unchanged { length path.new ≡ length path.old }
{
    if !marks.is_new(i) {
        return;
    }
    path[0] = Open {
        ty: i as u16,
        next: 0,
    };
    let mut depth = 1;
    while 0 < depth {
        depth = step(table, marks, path, depth);
    }
}

// Visits the types of the names, in their order.
fn meet_each(table: &[u16], names: &[ListedName], marks: &mut Marks, path: &mut [Open])
    requires meeting { Meeting table.now marks.old names.now }
    requires open_room { OpenRoom marks.old path.old }
    ensures { MetAll table.now marks.old marks.new names.now }
{
    for name in names {
        visit(table, name.ty as usize, marks, path);
    }
}

// A function of its own for each size of the array, with a frame of its own: a small one is soon filled.
fn meet_in<const TYPES: usize>(table: &[u16], names: &[ListedName], marks: &mut Marks)
    requires meeting { Meeting table.now marks.old names.now }
    requires room { (marks.old.counts.types ≤ TYPES + 8) × (TYPES ≤ most_types) }
    ensures { MetAll table.now marks.old marks.new names.now }
{
    let mut path = [NONE_OPEN; TYPES];
    meet_each(table, names, marks, &mut path);
}

fn meet_all(table: &[u16], names: &[ListedName], marks: &mut Marks)
    requires { Meeting table.now marks.old names.now }
    ensures { MetAll table.now marks.old marks.new names.now }
{
    if marks.counts.types <= FEW {
        meet_in::<FEW>(table, names, marks);
    } else {
        meet_in::<MOST_TYPES>(table, names, marks);
    }
}

// ---- sizes

// How many elements the type i has: none, unless it is a Tuple.
fn elements_in(table: &[u16], i: usize) -> usize
    requires { i < capacity table.now }
    ensures { ElementsIn table.now i result }
{
    match kind_of(table, i) {
        Kind::Tuple => parts_of(table, i),
        _ => 0,
    }
}

// How many elements the types of the sheet have.
fn elements_of(table: &[u16], marks: &Marks) -> usize
    requires { Marked (tab_of table.now marks.now) marks.now }
    ensures value { result ≡ length (elements_met table.now marks.now) }
    ensures upper_bound { result ≤ most_written }
{
    let mut sum = 0;
    for k in 0..marks.met {
        sum += elements_in(table, marks.type_at(k));
    }
    sum
}

// How many bytes the names' texts have.
fn size_of(names: &[ListedName]) -> usize
    requires { length names.now ≤ most_names }
    ensures { result ≡ listed_size names.now }
{
    names.iter().map(|name| name.len as usize).sum()
}

// ---- areas

fn put_three(out: &mut [u8], at: usize, a: usize, b: usize, c: usize)
    requires at_in_bounds { at + 12 ≤ length out.old }
    requires a_bound { (a < 4294967296) × (b < 4294967296) × (c < 4294967296) }
    ensures { Put out.old out.new at (words (a ∷ b ∷ c ∷ [])) }
{
    put_word(out, at, a as u32);
    put_word(out, at + SECOND_WORD, b as u32);
    put_word(out, at + THIRD_WORD, c as u32);
}

// The record of type i of the table, `from` elements after the first.
fn write_type(table: &[u16], marks: &Marks, i: usize, from: usize, out: &mut [u8], at: usize)
    requires met { Met table.now marks.now i }
    requires from_le_most_written { (from ≤ most_written) × (at + 12 ≤ length out.old) }
    ensures { Put out.old out.new at
        (record_bytes (tab_of table.now marks.now) marks.now from i) }
{
    let kind = kind_of(table, i);
    let (p, q) = match kind {
        Kind::Tuple => (from, parts_of(table, i)),
        _ => (
            marks.number_of(part_of(table, i)),
            marks.number_of(second_of(table, i)),
        ),
    };
    put_three(out, at, kind.number(), p, q);
}

fn write_types(table: &[u16], marks: &Marks, out: &mut [u8])
    requires marked { Marked (tab_of table.now marks.now) marks.now }
    requires marks_in_bounds { 40 + 12 * marks.now.met ≤ length out.old }
    ensures { Put out.old out.new 40
        (types_bytes (tab_of table.now marks.now) marks.now) }
{
    let mut from = 0;
    for k in 0..marks.met {
        let i = marks.type_at(k);
        write_type(table, marks, i, from, out, header::LENGTH + TYPE_RECORD * k);
        from += elements_in(table, i);
    }
}

// The elements of type i of the table. Returns where they end.
fn write_parts(table: &[u16], marks: &Marks, i: usize, out: &mut [u8], at: usize) -> usize
    requires met { Met table.now marks.now i }
    requires i_in_bounds { at + 4 * length (elements_in (denote (tab_of table.now marks.now) i)) ≤ length out.old }
    ensures put { Put out.old out.new at
        (element_bytes (tab_of table.now marks.now) marks.now i) }
    ensures value { result ≡ at
        + 4 * length (elements_in (denote (tab_of table.now marks.now) i)) }
{
    let n = elements_in(table, i);
    for j in 0..n {
        let w = marks.number_of(part_at(table, i, j));
        put_word(out, at + ELEMENT * j, w as u32);
    }
    at + ELEMENT * n
}

fn write_elements(table: &[u16], marks: &Marks, out: &mut [u8], from: usize)
    requires marked { Marked (tab_of table.now marks.now) marks.now }
    requires marks_in_bounds { from + 4 * length (elements_met table.now marks.now) ≤ length out.old }
    ensures { Put out.old out.new from
        (elements_bytes (tab_of table.now marks.now) marks.now) }
{
    let mut at = from;
    for k in 0..marks.met {
        at = write_parts(table, marks, marks.type_at(k), out, at);
    }
}

fn write_names(marks: &Marks, names: &[ListedName], out: &mut [u8], at: usize)
    requires { NamesFit marks.now names.now out.old at }
    ensures { NamesPut marks.now names.now out.old out.new at }
{
    let mut from = 0;
    for (k, name) in names.iter().enumerate() {
        let len = name.len as usize;
        let ty = marks.number_of(name.ty as usize);
        put_three(out, at + NAME_RECORD * k, from, len, ty);
        from += len;
    }
}

fn write_texts(source: &[u8], names: &[ListedName], out: &mut [u8], from: usize)
    requires { TextsFit source.now names.now out.old from }
    ensures { Put out.old out.new from (listed_texts source.now names.now) }
{
    let mut at = from;
    for name in names {
        at = put(
            out,
            at,
            text(source, name.start as usize, name.len as usize),
        );
    }
}

// ---- the whole

fn write_header(out: &mut [u8], areas: Areas, size: usize)
    requires { (size ≤ most_text) × (40 ≤ length out.old) }
    ensures { Put out.old out.new 0 (header_bytes areas.types areas.elements areas.names size) }
{
    put_three(
        out,
        header::VERSION,
        header::OURS,
        areas.types,
        header::LENGTH,
    );
    put_three(
        out,
        header::ELEMENT_COUNT,
        areas.elements,
        areas.elements_at(),
        areas.names,
    );
    put_three(out, header::NAMES, areas.names_at(), size, areas.texts_at());
    put_word(out, header::TOTAL, (areas.texts_at() + size) as u32);
}

fn fill(
    source: &[u8],
    table: &[u16],
    marks: &Marks,
    names: &[ListedName],
    areas: Areas,
    size: usize,
    out: &mut [u8],
)
    requires { Filling source.now table.now marks.now names.now areas size out.old }
    ensures { Put out.old out.new 0
        (sheet_of (map (entry_of source.now (tab_of table.now marks.now)) names.now)) }
{
    write_header(out, areas, size);
    write_types(table, marks, out);
    write_elements(table, marks, out, areas.elements_at());
    write_names(marks, names, out, areas.names_at());
    write_texts(source, names, out, areas.texts_at());
}

// Writes the sheet of the names to the front of `out` if it fits, and gives its length: if not, no byte changes.
pub fn write(
    source: &[u8],
    table: &[u16],
    counts: Counts,
    names: &NameList,
    count: usize,
    out: &mut [u8],
) -> Option<usize>
    requires { Listing source.now (tab table.now counts.types counts.elements) names.now count }
    ensures { Wrote (listed source.now (tab table.now counts.types counts.elements)
        names.now count) result out.old out.new }
{
    let mut numbers = [UNMET; STRUCTURED + MOST_TYPES];
    let mut order = [UNMET; MOST_TYPES];
    let mut marks = Marks {
        numbers: &mut numbers,
        order: &mut order,
        met: 0,
        counts,
    };
    let names = &names[..count];
    meet_all(table, names, &mut marks);
    let areas = Areas {
        types: marks.met,
        elements: elements_of(table, &marks),
        names: names.len(),
    };
    let size = size_of(names);
    let total = areas.texts_at() + size;
    if out.len() < total {
        return None;
    }
    fill(source, table, &marks, names, areas, size, out);
    Some(total)
}
