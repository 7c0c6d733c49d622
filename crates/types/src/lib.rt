// The type table: types as numbers, equal numbers for equal types. The plain types are the numbers 0 to 7. One lent
// slice is the whole table: the records, RECORD cells each; behind the room for records, tuple elements, and behind
// the room for these, the slots of the chains. Its length tells the room: as many elements and as many slots as
// records, CELLS cells for the three.
// A record is List(p), Dict(p, q), Tuple (q elements from element p on), MapIter(p) or FilterIter(p), and has 0 where
// it has no part.
// A record's hash names its slot. The slot has the last number of its chain and a record's link the one before; a
// number below 8 ends it.
#![tactic(auto, using(crate::proofs::Room::capacity_within, crate::proofs::Room::slots_within))]

ghost use Rattle.std.specs.Prelude.{◌≡◌, map, length, get_or, take, drop, Bool, true, ℕ, ◌+◌, ◌*◌, ◌≤◌, ◌<◌};
ghost use Rattle.words.specs.Words.{put_at};
ghost use Rattle.meaning.specs.Types.{tuple, tys};
ghost use Rattle.types.specs.Layout.{capacity, kind_cell, second_cell, link_cell, elements_from};
ghost use Rattle.types.specs.Kinds.{kind_number, Numbered};
ghost use Rattle.types.specs.Table.{step, tuple_hash, slot_of, Chains};
ghost use Rattle.types.specs.Table.{Fresh, Wf, Made, tab, denote, built};
ghost use Rattle.types.specs.Steps.{Asked, Listed, RecordAt, TupleAt, Told};
ghost use Rattle.types.specs.Steps.{Slot, Found, Written, Added};
ghost use Rattle.types.specs.Reading.{KindOf, PartOf, PartsOf, HasPart, PartAt, IsNumber, IsTuple, IsElement};
ghost use Rattle.types.specs.Reading.{ElementAt, CommonOf, ElementOf, shared, Agreement};

// The plain types, numbers 0 to 7: each is its own kind.
pub const UNKNOWN: usize = 0;

pub const INT: usize = 1;

pub const BOOL: usize = 2;

pub const STRING: usize = 3;

pub const FLOAT: usize = 4;

pub const NONE_TYPE: usize = 5;

pub const RANGE: usize = 6;

pub const FUNCTION: usize = 7;

// The first number that is no plain type's.
pub const STRUCTURED: usize = 8;

// What a type is built as: a plain type is its own kind, and stands here in the order of their numbers.
#[derive(Clone, Copy, PartialEq, Eq)]
pub enum Kind {
    Unknown,
    Int,
    Bool,
    String,
    Float,
    NoneType,
    Range,
    Function,
    List,
    Dict,
    Tuple,
    MapIter,
    FilterIter,
}

impl Kind {
    pub fn number(self) -> usize
        ensures { result ≡ kind_number self }
    {
        self as usize
    }
}

// A Tuple's kind as a cell has it.
const TUPLE_CELL: u16 = Kind::Tuple as u16;

// The cells of a record: kind, p, q and its link. The kind is the first.
const RECORD: usize = 4;

const P: usize = 1;

const Q: usize = 2;

const LINK: usize = 3;

// The slots stand behind the records and an element for each.
const SLOTS: usize = RECORD + 1;

// The cells of a table for each type that it has room for: its record, a tuple element and a slot.
pub const CELLS: usize = SLOTS + 1;

// What a record has where it has no part: Unknown's number.
pub const NO_PART: usize = UNKNOWN;

// What a fresh table is filled with: no chain, for 1 is a plain type. A fill with 0 is made byte by byte, one with 1
// by 16 bytes at a time.
pub const FRESH: u16 = 1;

// The hashes are below this prime, so that two that differ still do when the same numbers follow.
const HASHES: usize = 4093;

// And a hash moves by so much before the next number comes in.
const SHIFT: usize = 8;

// How many types and how many tuple elements a table has.
#[derive(Clone, Copy)]
pub struct Counts {
    pub types: usize,
    pub elements: usize,
}

// A type's number, and the counts of the table that has it.
#[derive(Clone, Copy)]
pub struct Formed {
    pub number: usize,
    pub counts: Counts,
}

// A record without its link.
#[derive(Clone, Copy, PartialEq, Eq)]
struct Record {
    kind: u16,
    p: u16,
    q: u16,
}

fn cell(table: &[u16], at: usize) -> usize
    requires { at < length table.now }
    ensures { result ≡ get_or table.now at 0 }
{
    usize::from(table[at])
}

// The cell of the first tuple element.
fn base(table: &[u16]) -> usize
    ensures { result ≡ elements_from table.now }
{
    RECORD * (table.len() / CELLS)
}

// Writes record i.
fn put(table: &mut [u16], i: usize, r: Record)
    requires { second_cell i < length table.old }
    ensures { Written table.old table.new i r.kind r.p r.q }
{
    table[RECORD * i] = r.kind;
    table[RECORD * i + P] = r.p;
    table[RECORD * i + Q] = r.q;
}

// The table with the plain types alone: 8 numbers and no element. The chains are not emptied here: cells filled with 1
// have none.
pub fn start(table: &mut [u16])
    requires { Fresh table.old }
    ensures { Wf (tab table.new 8 0) }
{
    for i in 0..STRUCTURED {
        let kind = i as u16;
        put(table, i, Record { kind, p: 0, q: 0 });
    }
}

// Whether record i is this one.
fn holds(table: &[u16], i: usize, r: Record) -> bool
    requires { second_cell i < length table.now }
    ensures { Told (RecordAt table.now r.kind r.p r.q i) result }
{
    let own = Record {
        kind: table[RECORD * i],
        p: table[RECORD * i + P],
        q: table[RECORD * i + Q],
    };
    own == r
}

// A hash with one number more.
fn mixed(h: usize, e: usize) -> usize
    requires { (h < 4093) × (e < 65536) }
    ensures { (result ≡ step h e) × (result < 4093) }
{
    (SHIFT * h + e) % HASHES
}

// The slot of a hash.
fn slot_of(table: &[u16], h: usize) -> usize
    requires { 0 < capacity table.now }
    ensures { result ≡ slot_of table.now h }
{
    let n = table.len() / CELLS;
    SLOTS * n + h % n
}

// The number in the slot's chain that the test holds of, if there is one.
fn find<F: Fn(usize) -> bool>(table: &[u16], slot: usize, types: usize, test: F) -> Option<usize>
    requires types_bound { types ≤ capacity table.now }
    requires chains { Chains table.now types }
    requires slot { Slot (λ i. F.post test i true) table.now types slot }
    requires tested { (i : ℕ) → i < types → F.pre test i }
    requires told { (i : ℕ) (b : Bool) → i < types → F.post test i b → Told (F.post test i true) b }
    ensures { Found (λ i. F.post test i true) types result }
{
    let mut i = cell(table, slot);
    while STRUCTURED <= i {
        if test(i) {
            return Some(i);
        }
        i = cell(table, RECORD * i + LINK);
    }
    None
}

// Writes record i, and makes it the last one of the slot's chain.
fn add(table: &mut [u16], slot: usize, i: usize, r: Record)
    requires { (link_cell i < slot) × (slot < length table.old) × (i < 65536) }
    ensures { Added table.old table.new slot i r.kind r.p r.q }
{
    put(table, i, r);
    table[RECORD * i + LINK] = table[slot];
    table[slot] = i as u16;
}

// The number of the List, Dict, MapIter or FilterIter of p (and q): the one it has, or the next one.
pub fn form(table: &mut [u16], counts: Counts, kind: Kind, p: usize, q: usize) -> Formed
    requires { Asked (tab table.old counts.types counts.elements) (kind_number kind) p q }
    ensures { Made (tab table.old counts.types counts.elements)
        (tab table.new result.counts.types result.counts.elements)
        result.number
        (built (kind_number kind) (denote (tab table.old counts.types counts.elements) p)
        (denote (tab table.old counts.types counts.elements) q))
        0 }
{
    let types = counts.types;
    let number = kind.number();
    let r = Record {
        kind: number as u16,
        p: p as u16,
        q: q as u16,
    };
    let slot = slot_of(table, mixed(mixed(number, p), q));
    let is_it = |i: usize|
        requires { i < capacity table.now }
        ensures { Told (RecordAt table.entry.now r.kind r.p r.q i) result }
    { holds(table, i, r) };
    if let Some(found) = find(table, slot, types, is_it) {
        return Formed {
            number: found,
            counts,
        };
    }
    add(table, slot, types, r);
    Formed {
        number: types,
        counts: Counts {
            types: types + 1,
            elements: counts.elements,
        },
    }
}

// Cell k of record i.
fn field(table: &[u16], i: usize, k: usize) -> usize
    requires { (i < capacity table.now) × (k < 4) }
    ensures { result ≡ get_or table.now (kind_cell i + k) 0 }
{
    cell(table, RECORD * i + k)
}

// Whether record i is the Tuple of these numbers. `first`, the cell of the first element, is handed in so that a search
// works it out once.
fn matches(table: &[u16], first: usize, i: usize, elements: &[u16]) -> bool
    requires first_value { first ≡ elements_from table.now }
    requires number { IsNumber table.now i }
    ensures { Told (TupleAt table.now elements.now i) result }
{
    if table[RECORD * i] != TUPLE_CELL || field(table, i, Q) != elements.len() {
        return false;
    }
    let at = first + field(table, i, P);
    &table[at..at + elements.len()] == elements
}

// The hash of the Tuple of these numbers.
fn hash_of(elements: &[u16]) -> usize
    ensures { result ≡ tuple_hash elements.now }
{
    let mut h = Kind::Tuple as usize;
    for e in elements {
        h = mixed(h, usize::from(*e));
    }
    h
}

// Writes the elements to the cells from `at` on; one by one, for the reason that `words::put` gives.
fn copy(table: &mut [u16], at: usize, elements: &[u16])
    requires { at + length elements.now ≤ length table.old }
    ensures { table.new ≡ put_at table.old at elements.now }
{
    for j in 0..elements.len() {
        table[at + j] = elements[j];
    }
}

// The number of the Tuple of the n numbers of the stack from `from` on: the one it has, or the next one.
pub fn tuple_of(table: &mut [u16], counts: Counts, stack: &[u16], from: usize, n: usize) -> Formed
    requires { Listed (tab table.old counts.types counts.elements) stack.now from n }
    ensures { Made (tab table.old counts.types counts.elements)
        (tab table.new result.counts.types result.counts.elements)
        result.number
        (tuple (tys (map (denote (tab table.old counts.types counts.elements))
        (take n (drop from stack.now)))))
        n }
{
    let types = counts.types;
    let elements = &stack[from..from + n];
    let first = base(table);
    let slot = slot_of(table, hash_of(elements));
    let is_it = |i: usize|
        requires { (first ≡ elements_from table.now) × IsNumber table.now i }
        ensures { Told (TupleAt table.entry.now elements.entry.now i) result }
    { matches(table, first, i, elements) };
    if let Some(number) = find(table, slot, types, is_it) {
        return Formed { number, counts };
    }
    copy(table, first + counts.elements, elements);
    add(
        table,
        slot,
        types,
        Record {
            kind: TUPLE_CELL,
            p: counts.elements as u16,
            q: n as u16,
        },
    );
    Formed {
        number: types,
        counts: Counts {
            types: types + 1,
            elements: counts.elements + n,
        },
    }
}

// The kind of a number.
pub fn numbered(number: usize) -> Kind
    ensures { Numbered number result }
{
    match number {
        0 => Kind::Unknown,
        1 => Kind::Int,
        2 => Kind::Bool,
        3 => Kind::String,
        4 => Kind::Float,
        5 => Kind::NoneType,
        6 => Kind::Range,
        7 => Kind::Function,
        8 => Kind::List,
        9 => Kind::Dict,
        10 => Kind::Tuple,
        11 => Kind::MapIter,
        _ => Kind::FilterIter,
    }
}

// The kind of type i.
pub fn kind_of(table: &[u16], i: usize) -> Kind
    requires { i < capacity table.now }
    ensures { KindOf table.now i result }
{
    numbered(cell(table, RECORD * i))
}

// The first part of type i, if that is no Tuple: 0, Unknown, if it has none.
pub fn part_of(table: &[u16], i: usize) -> usize
    requires { i < capacity table.now }
    ensures { PartOf table.now 0 i result }
{
    field(table, i, P)
}

// The second part of type i, if that is no Tuple: 0, Unknown, if it has none.
pub fn second_of(table: &[u16], i: usize) -> usize
    requires { i < capacity table.now }
    ensures { PartOf table.now 1 i result }
{
    field(table, i, Q)
}

// The element j of the Tuple i.
fn element_at(table: &[u16], i: usize, j: usize) -> usize
    requires { IsElement table.now i j }
    ensures { ElementAt table.now i j result }
{
    cell(table, base(table) + field(table, i, P) + j)
}

// How many parts type i has: a plain type has none.
pub fn parts_of(table: &[u16], i: usize) -> usize
    requires { i < capacity table.now }
    ensures { PartsOf table.now i result }
{
    match kind_of(table, i) {
        Kind::Dict => 2,
        Kind::Tuple => field(table, i, Q),
        Kind::List | Kind::MapIter | Kind::FilterIter => 1,
        _ => 0,
    }
}

// Part j of type i.
pub fn part_at(table: &[u16], i: usize, j: usize) -> usize
    requires { HasPart table.now i j }
    ensures { PartAt table.now i j result }
{
    match kind_of(table, i) {
        Kind::Tuple => element_at(table, i, j),
        _ if j == 0 => part_of(table, i),
        _ => second_of(table, i),
    }
}

// The type that these share, or Unknown.
fn shared_of(elements: &[u16]) -> usize
    ensures { result ≡ shared elements.now }
{
    match elements {
        [first, rest @ ..] if rest.iter().all(|e| first == e) => usize::from(*first),
        _ => UNKNOWN,
    }
}

// The type that all elements of the Tuple i share: 0, Unknown, if there is none.
pub fn common_of(table: &[u16], i: usize) -> usize
    requires { IsTuple table.now i }
    ensures { CommonOf table.now i result }
{
    let at = base(table) + field(table, i, P);
    shared_of(&table[at..at + field(table, i, Q)])
}

// What a walk over a value of type i gives.
pub fn element_of(table: &[u16], i: usize) -> Option<usize>
    requires { IsNumber table.now i }
    ensures { ElementOf table.now i result }
{
    match numbered(cell(table, RECORD * i)) {
        Kind::Unknown => Some(UNKNOWN),
        Kind::String => Some(STRING),
        Kind::Range => Some(INT),
        Kind::Tuple => Some(common_of(table, i)),
        Kind::List | Kind::Dict | Kind::MapIter | Kind::FilterIter => Some(part_of(table, i)),
        Kind::Int | Kind::Bool | Kind::Float | Kind::NoneType | Kind::Function => None,
    }
}

// What an old type a and a new type b agree on: Unknown gives way, and two others must be equal.
pub fn agreed(a: usize, b: usize) -> Option<usize>
    ensures { Agreement a b result }
{
    if a == UNKNOWN || a == b {
        Some(b)
    } else if b == UNKNOWN {
        Some(a)
    } else {
        None
    }
}
