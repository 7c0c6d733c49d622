// The sheet's reader: it refuses no more than it must to read on, and then the writer decides.
ghost use Rattle.std.specs.Prelude.{◌≡◌, [], map, false, eqb, length, take, MatchOption, ℕ, ◌+◌, ◌≤◌, ◌<◌};
ghost use Rattle.meaning.specs.Base.{word, test◌then◌else◌};
ghost use Rattle.meaning.specs.Limits.{most_types};
ghost use Rattle.meaning.specs.Read.{type_from, is_sheet};
ghost use Rattle.types.specs.Kinds.{kind_number};
ghost use Rattle.types.specs.Table.{most_numbers, capacity, Fresh, tab, denote, Wf, Made};
ghost use Rattle.sheet.specs.Listing.{Listing, listed};
ghost use Rattle.sheet.specs.Reading.{Headed, Told, number_in, Gathering, Gathered, Tupling, tuple_at, Forming};
ghost use Rattle.sheet.specs.Reading.{Typing, Typed as TypeRead, TypesRead};
ghost use Rattle.sheet.specs.Reading.{NameStep, NamesRead, TextsInside, TextsTold, Compared, Reads};

use crate::header;
use crate::layout::Areas;
use crate::list::{ListedName, NameList, put_name};
use crate::records::{ELEMENT, NAME_RECORD, SECOND_WORD, THIRD_WORD, TYPE_RECORD};
use crate::writer::write;
use limits::{LARGEST_SHEET, LONGEST_NAME, MOST_ELEMENTS, MOST_NAMES, MOST_TYPES};
use types::{
    CELLS, Counts, FRESH, Formed, Kind, NO_PART, STRUCTURED, UNKNOWN, form, numbered, start,
    tuple_of,
};
use words::{get_word, same, text, text_stands};

// A table with room for whatever a sheet may hold.
pub const TABLE_CELLS: usize = CELLS * (STRUCTURED + MOST_TYPES);

// The table's numbers of the types that were read, and those of one Tuple's elements.
type Numbers = [u16; MOST_TYPES];

// What was read from a sheet: the counts of its table, and how many names.
#[derive(Clone, Copy)]
pub struct ReadSheet {
    pub counts: Counts,
    pub names: usize,
}

// Bytes that may be a sheet, with what their header says.
#[derive(Clone, Copy)]
struct Sheet<'a> {
    bytes: &'a [u8],
    areas: Areas,
    ghost headed: { Headed bytes.now areas },
}

// The type of one record: its number, how many elements were read by then, and the counts of the table that has it.
#[derive(Clone, Copy)]
struct Typed {
    number: usize,
    used: usize,
    counts: Counts,
}

fn word_at(sheet: &[u8], at: usize) -> usize
    requires { at + 4 ≤ length sheet.now }
    ensures value { result ≡ word sheet.now at }
    ensures upper_bound { result < 4294967296 }
{
    get_word(sheet, at) as usize
}

// What the header says, if the counts keep the limits and the areas lie within.
fn areas_of(sheet: &[u8]) -> Option<Areas>
    ensures { MatchOption result (is_sheet sheet.now ≡ false) (λ a. Headed sheet.now a) }
{
    if sheet.len() < header::LENGTH || LARGEST_SHEET < sheet.len() {
        return None;
    }
    let types = word_at(sheet, header::TYPE_COUNT);
    let elements = word_at(sheet, header::ELEMENT_COUNT);
    let names = word_at(sheet, header::NAME_COUNT);
    if MOST_TYPES < types || MOST_ELEMENTS < elements || MOST_NAMES < names {
        return None;
    }
    let areas = Areas {
        types,
        elements,
        names,
    };
    if sheet.len() < areas.texts_at() {
        return None;
    }
    Some(areas)
}

// The table's number of the sheet's number n, by the numbers of the types before.
fn number_in(numbers: &[u16], n: usize) -> usize
    ensures value { result ≡ number_in numbers.now n }
    ensures upper_bound { result < 65536 }
{
    if n < STRUCTURED {
        return n;
    }
    if n - STRUCTURED < numbers.len() {
        return usize::from(numbers[n - STRUCTURED]);
    }
    UNKNOWN
}

// The table's numbers of the q words at a place.
fn gather(sheet: &[u8], at: usize, numbers: &[u16], q: usize, stack: &mut Numbers)
    requires { Gathering sheet.now at q }
    ensures { Gathered sheet.now at numbers.now q stack.new }
{
    for j in 0..q {
        stack[j] = number_in(numbers, word_at(sheet, at + ELEMENT * j)) as u16;
    }
}

fn form_tuple(
    sheet: &[u8],
    at: usize,
    numbers: &[u16],
    q: usize,
    table: &mut [u16],
    counts: Counts,
) -> Formed
    requires { Tupling sheet.now at numbers.now q (tab table.old counts.types counts.elements) }
    ensures { Made (tab table.old counts.types counts.elements)
        (tab table.new result.counts.types result.counts.elements)
        result.number
        (tuple_at sheet.now at numbers.now q (tab table.old counts.types counts.elements))
        q }
{
    let mut stack = [FRESH; MOST_TYPES];
    gather(sheet, at, numbers, q, &mut stack);
    tuple_of(table, counts, &stack, 0, q)
}

fn second_in(numbers: &[u16], kind: Kind, q: usize) -> usize
    ensures { result ≡ (test eqb (kind_number kind) 9 then number_in numbers.now q else 0) }
{
    match kind {
        Kind::Dict => number_in(numbers, q),
        _ => NO_PART,
    }
}

// A kind that is none is read as Unknown.
fn form_other(
    numbers: &[u16],
    kind: usize,
    p: usize,
    q: usize,
    table: &mut [u16],
    counts: Counts,
) -> Formed
    requires { Forming numbers.now kind (tab table.old counts.types counts.elements) }
    ensures { Made (tab table.old counts.types counts.elements)
        (tab table.new result.counts.types result.counts.elements)
        result.number
        (type_from [] (map (denote (tab table.old counts.types counts.elements))
        numbers.now) (kind, p, q))
        0 }
{
    if kind < STRUCTURED || kind > Kind::FilterIter as usize {
        return Formed {
            number: UNKNOWN,
            counts,
        };
    }
    let kind = numbered(kind);
    let a = number_in(numbers, p);
    let b = second_in(numbers, kind, q);
    form(table, counts, kind, a, b)
}

// The type of record k, by the numbers of the types before. A Tuple's elements must be among those of the sheet, and
// all Tuples together may not have more of them.
fn read_type(
    sheet: &Sheet,
    k: usize,
    used: usize,
    numbers: &[u16],
    table: &mut [u16],
    counts: Counts,
) -> Option<Typed>
    requires { Typing sheet.now.bytes.now numbers.now k used (tab table.old counts.types counts.elements) }
    ensures { MatchOption result (is_sheet sheet.now.bytes.now ≡ false) (λ r.
        TypeRead sheet.now.bytes.now numbers.now k used (tab table.old counts.types counts.elements)
        (tab table.new r.counts.types r.counts.elements) r.used r.number) }
{
    let at = header::LENGTH + TYPE_RECORD * k;
    let kind = word_at(sheet.bytes, at);
    let p = word_at(sheet.bytes, at + SECOND_WORD);
    let q = word_at(sheet.bytes, at + THIRD_WORD);
    if kind != Kind::Tuple as usize {
        let f = form_other(numbers, kind, p, q, table, counts);
        return Some(Typed {
            number: f.number,
            used,
            counts: f.counts,
        });
    }
    if sheet.areas.elements < p + q || sheet.areas.elements < used + q {
        return None;
    }
    let f = form_tuple(
        sheet.bytes,
        sheet.areas.elements_at() + ELEMENT * p,
        numbers,
        q,
        table,
        counts,
    );
    Some(Typed {
        number: f.number,
        used: used + q,
        counts: f.counts,
    })
}

// The types of all records; the table holds the plain types alone before.
fn read_types(sheet: &Sheet, table: &mut [u16], numbers: &mut Numbers) -> Option<Counts>
    requires wf { Wf (tab table.old 8 0) }
    requires most_numbers_bound { most_numbers ≤ capacity table.old }
    ensures { MatchOption result (is_sheet sheet.now.bytes.now ≡ false) (λ r.
        TypesRead sheet.now.bytes.now (take sheet.now.areas.types numbers.new) (tab table.new r.types r.elements)) }
{
    let mut used = 0;
    let mut counts = Counts {
        types: STRUCTURED,
        elements: 0,
    };
    for k in 0..sheet.areas.types {
        let r = read_type(sheet, k, used, &numbers[..k], table, counts)?;
        numbers[k] = r.number as u16;
        used = r.used;
        counts = r.counts;
    }
    Some(counts)
}

// Name k: its text must lie in the bytes and be short enough.
fn read_name(sheet: &Sheet, k: usize, numbers: &[u16], names: &mut NameList) -> bool
    requires { k < sheet.now.areas.names }
    ensures { Told (NameStep sheet.now.bytes.now numbers.now names.old names.new k) sheet.now.bytes.now result }
{
    let at = sheet.areas.names_at() + NAME_RECORD * k;
    let start = sheet.areas.texts_at() + word_at(sheet.bytes, at);
    let len = word_at(sheet.bytes, at + SECOND_WORD);
    let ty = number_in(numbers, word_at(sheet.bytes, at + THIRD_WORD));
    if LONGEST_NAME < len || sheet.bytes.len() < start + len {
        return false;
    }
    put_name(names, k, start as u32, len as u32, ty as u32);
    true
}

fn read_names(sheet: &Sheet, numbers: &[u16], names: &mut NameList) -> bool
    ensures { Told (NamesRead sheet.now.bytes.now numbers.now names.new sheet.now.areas.names)
        sheet.now.bytes.now result }
{
    for k in 0..sheet.areas.names {
        if !read_name(sheet, k, numbers, names) {
            return false;
        }
    }
    true
}

fn texts_stand(sheet: &[u8], names: &[ListedName]) -> bool
    requires { TextsInside sheet.now names.now }
    ensures { TextsTold sheet.now names.now result }
{
    let mut last = text(sheet, 0, 0);
    for name in names {
        let spelling = text(sheet, name.start as usize, name.len as usize);
        if !text_stands(last, spelling) {
            return false;
        }
        last = spelling;
    }
    true
}

// Whether writing the names gives the bytes again: no sheet is longer than 42,532 bytes.
fn rewrites(sheet: &[u8], table: &[u16], counts: Counts, names: &NameList, count: usize) -> bool
    requires { Listing sheet.now (tab table.now counts.types counts.elements) names.now count }
    ensures { Compared sheet.now (listed sheet.now
        (tab table.now counts.types counts.elements) names.now count) result }
{
    let mut out = [0u8; LARGEST_SHEET];
    match write(sheet, table, counts, names, count, &mut out) {
        Some(length) => same(sheet, text(&out, 0, length)),
        None => false,
    }
}

// Reads a sheet into a table of its types and a list of its names: whatever the bytes, it says whether they are one.
// The table is one of TABLE_CELLS.
pub fn read(sheet: &[u8], table: &mut [u16], names: &mut NameList) -> Option<ReadSheet>
    requires { (capacity table.old ≡ most_numbers) × Fresh table.old }
    ensures { Reads sheet.now result table.new names.new }
{
    let areas = areas_of(sheet)?;
    let headed = Sheet {
        bytes: sheet,
        areas,
    };
    start(table);
    let mut numbers = [FRESH; MOST_TYPES];
    let counts = read_types(&headed, table, &mut numbers)?;
    if !read_names(&headed, &numbers[..areas.types], names) {
        return None;
    }
    if !texts_stand(sheet, &names[..areas.names]) {
        return None;
    }
    if !rewrites(sheet, table, counts, names, areas.names) {
        return None;
    }
    Some(ReadSheet {
        counts,
        names: areas.names,
    })
}
