// The message of a typing refusal: T's text, with types in Rust's Debug form, at the front of a lent buffer if it fits.
#![tactic(auto)]

ghost use Rattle.std.specs.Prelude.{◌≡◌, ◌++◌, ◌+◌, ◌<◌, ◌≤◌, length};
ghost use Rattle.std.proofs.Math.Option.{none};
ghost use Rattle.meaning.specs.Answer.{fitting, overlaid};
ghost use Rattle.meaning.specs.Base.{decimal, bytes};
ghost use Rattle.meaning.specs.Image.{broken_name, name_records, names_of, name_of};
ghost use Rattle.meaning.specs.Rules.{described};
ghost use Rattle.meaning.specs.Types.{text};
ghost use Rattle.meaning.proofs.Faults.{Headed};
ghost use Rattle.image.specs.Parts.{name_means, record_of};
ghost use Rattle.rules.specs.Outcome.{taken};
ghost use Rattle.types.specs.Kinds.{kind_number};
ghost use Rattle.types.specs.Table.{most_numbers, tab};
ghost use Rattle.types.specs.Reading.{Known, type_at};
ghost use Rattle.codes.specs.Codes.{code_number};
ghost use Rattle.message.specs.Told.{told, Tells, laid_out, format_of};
ghost use Rattle.words.specs.Words.{put_at};
ghost use Rattle.message.specs.Texts.{opening, closing, comma, clipped, size_at, Sized, AllKnown};
ghost use Rattle.message.specs.Pieces.{Small, CountsPiece, Says, Ready, IsReady, gaps, piece_text, whole_text};

mod formats;

use codes::{Code, NoCode};
use formats::{LONGEST, put_format};
use image::{NameAt, areas, name_at, roles};
use limits::MOST_NODES;
use types::{Counts, Kind, STRUCTURED, kind_of, part_at, parts_of};
use words::{decimal_length, put, put_decimal, text as part_of_text};

// What a message names: a type, a part of the image, a number, two numbers with a dash, or any count of arguments.
#[derive(Clone, Copy)]
enum Piece {
    Nothing,
    OfType(usize),
    OfText(usize, usize),
    OfNumber(u32),
    OfRange(u32, u32),
    OfAny,
}

// ---- what stands around the parts of a type, and between them

fn opening(kind: Kind) -> &'static [u8]
    ensures { result.now ≡ opening (kind_number kind) }
{
    match kind {
        Kind::Unknown => b"Unknown",
        Kind::Int => b"Int",
        Kind::Bool => b"Bool",
        Kind::String => b"String",
        Kind::Float => b"Float",
        Kind::NoneType => b"NoneType",
        Kind::Range => b"Range",
        Kind::Function => b"Function",
        Kind::List => b"List(",
        Kind::Dict => b"Dict(",
        Kind::Tuple => b"Tuple([",
        Kind::MapIter => b"MapIter(",
        Kind::FilterIter => b"FilterIter(",
    }
}

#[tactic(auto, unfolding(crate::proofs::Open::texts_open))]
fn closing(kind: Kind) -> &'static [u8]
    ensures { result.now ≡ closing (kind_number kind) }
{
    match kind {
        Kind::Unknown
        | Kind::Int
        | Kind::Bool
        | Kind::String
        | Kind::Float
        | Kind::NoneType
        | Kind::Range
        | Kind::Function => b"",
        Kind::Tuple => b"])",
        Kind::List | Kind::Dict | Kind::MapIter | Kind::FilterIter => b")",
    }
}

// Nothing stands before the first part.
#[tactic(auto, unfolding(crate::proofs::Open::texts_open), using(std::proofs::lemmas::Bool::Decides::nat_tests))]
fn comma(j: usize) -> &'static [u8]
    ensures { result.now ≡ comma j }
{
    if j == 0 { b"" } else { b", " }
}

// The three texts written. Each text has a call of its own, by which the compiler knows its length and writes it by
// stores: one call for all of them took 1.7 times as long for a long type.

fn put_opening(kind: Kind, out: &mut [u8], at: usize) -> usize
    requires { at + length (opening (kind_number kind)) ≤ length out.old }
    ensures out_after { out.new ≡ put_at out.old at (opening (kind_number kind)) }
    ensures value { result ≡ at + length (opening (kind_number kind)) }
{
    match kind {
        Kind::Unknown => put(out, at, opening(Kind::Unknown)),
        Kind::Int => put(out, at, opening(Kind::Int)),
        Kind::Bool => put(out, at, opening(Kind::Bool)),
        Kind::String => put(out, at, opening(Kind::String)),
        Kind::Float => put(out, at, opening(Kind::Float)),
        Kind::NoneType => put(out, at, opening(Kind::NoneType)),
        Kind::Range => put(out, at, opening(Kind::Range)),
        Kind::Function => put(out, at, opening(Kind::Function)),
        Kind::List => put(out, at, opening(Kind::List)),
        Kind::Dict => put(out, at, opening(Kind::Dict)),
        Kind::Tuple => put(out, at, opening(Kind::Tuple)),
        Kind::MapIter => put(out, at, opening(Kind::MapIter)),
        Kind::FilterIter => put(out, at, opening(Kind::FilterIter)),
    }
}

fn put_closing(kind: Kind, out: &mut [u8], at: usize) -> usize
    requires { at + length (closing (kind_number kind)) ≤ length out.old }
    ensures out_after { out.new ≡ put_at out.old at (closing (kind_number kind)) }
    ensures value { result ≡ at + length (closing (kind_number kind)) }
{
    match kind {
        Kind::List => put(out, at, closing(Kind::List)),
        Kind::Dict => put(out, at, closing(Kind::Dict)),
        Kind::Tuple => put(out, at, closing(Kind::Tuple)),
        Kind::MapIter => put(out, at, closing(Kind::MapIter)),
        Kind::FilterIter => put(out, at, closing(Kind::FilterIter)),
        _ => put(out, at, closing(kind)),
    }
}

fn put_comma(j: usize, out: &mut [u8], at: usize) -> usize
    requires { at + length (comma j) ≤ length out.old }
    ensures out_after { out.new ≡ put_at out.old at (comma j) }
    ensures value { result ≡ at + length (comma j) }
{
    if j == 0 {
        put(out, at, comma(0))
    } else {
        put(out, at, comma(j))
    }
}

// ---- lengths: a text may double with each type, so they are counted up to a cap only

#[tactic(auto, unfolding(crate::proofs::Open::texts_open), using(std::proofs::lemmas::Bool::Decides::nat_tests))]
fn clip(x: usize, y: usize, cap: usize) -> usize
    ensures { result ≡ clipped cap (x + y) }
{
    x.saturating_add(y).min(cap)
}

// Counted from the lengths of its parts, which have lower numbers.
fn size_of(table: &[u16], i: usize, lens: &[usize], cap: usize) -> usize
    requires known { Known table.now i }
    requires sized { Sized table.now cap lens.now i }
    ensures { result ≡ size_at table.now cap i }
{
    let kind = kind_of(table, i);
    let mut size = clip(0, opening(kind).len(), cap);
    for j in 0..parts_of(table, i) {
        size = clip(size, comma(j).len(), cap);
        size = clip(size, lens[part_at(table, i, j)], cap);
    }
    clip(size, closing(kind).len(), cap)
}

// The lengths of the texts of the first `types` numbers, each worked out once.
pub fn measure(table: &[u16], types: usize, cap: usize, lens: &mut [usize])
    requires all_known { AllKnown table.now types }
    requires types_in_bounds { types ≤ length lens.old }
    ensures { Sized table.now cap lens.new types }
{
    for i in 0..types {
        lens[i] = size_of(table, i, lens, cap);
    }
}

// ---- a type's text

// Recurs by the type's number, which falls; one frame for each type that lies around another.
pub fn put_type(table: &[u16], i: usize, out: &mut [u8], at: usize) -> usize
    requires known { Known table.now i }
    requires i_in_bounds { at + length (text (type_at table.now i)) ≤ length out.old }
    ensures out_after { out.new ≡ put_at out.old at (text (type_at table.now i)) }
    ensures value { result ≡ at + length (text (type_at table.now i)) }
{
    let mut end = put_opening(kind_of(table, i), out, at);
    for j in 0..parts_of(table, i) {
        end = put_comma(j, out, end);
        end = put_type(table, part_at(table, i, j), out, end);
    }
    put_closing(kind_of(table, i), out, end)
}

// ---- what a message names

// A number that is no name's has the empty text and the role of a plain name.
fn record_of(image: &[u8], a: usize) -> NameAt
    requires { Headed image.now }
    ensures { name_means result ≡ record_of (name_records image.now) a }
{
    if a < areas(image).names {
        return name_at(image, a);
    }
    NameAt {
        start: 0,
        len: 0,
        role: roles::PLAIN,
        p: 0,
        q: 0,
    }
}

fn spelled(image: &[u8], a: usize) -> Piece
    requires headed { Headed image.now }
    requires image_value { broken_name image.now ≡ none }
    ensures { Says image.now (name_of (names_of image.now) a).spelling result }
{
    let r = record_of(image, a);
    let texts = areas(image).texts;
    Piece::OfText(texts + r.start as usize, r.len as usize)
}

// How many arguments a builtin takes, as its refusal says it.
fn arity(image: &[u8], a: usize) -> Piece
    requires { Headed image.now }
    ensures { Says image.now (described (name_of (names_of image.now) a).role) result }
{
    let r = record_of(image, a);
    let role = r.role;
    match role {
        roles::EXACTLY | roles::FUNCTION => Piece::OfNumber(r.p),
        roles::BETWEEN => {
            if r.p == r.q {
                return Piece::OfNumber(r.p);
            }
            Piece::OfRange(r.p, r.q)
        }
        roles::ANY => Piece::OfAny,
        _ => Piece::Nothing,
    }
}

// How many arguments a function takes, and 0 for what is none.
fn taken_by(image: &[u8], a: usize) -> Piece
    requires { Headed image.now }
    ensures { Says image.now
        (decimal (taken (name_of (names_of image.now) a).role)) result }
{
    let r = record_of(image, a);
    if r.role == roles::FUNCTION {
        return Piece::OfNumber(r.p);
    }
    Piece::OfNumber(0)
}

// ---- a format string with its pieces put in: `_` stands for the next piece

const GAP: u8 = b'_';

// Not clipped: only a type's text can be long, and that length is. The dash of a range has one byte, `any` three.
fn piece_size(piece: Piece, lens: &[usize]) -> usize
    requires { Small (length lens.now) piece }
    ensures { CountsPiece lens.now piece result }
{
    match piece {
        Piece::Nothing => 0,
        Piece::OfType(i) => lens[i],
        Piece::OfText(_, len) => len,
        Piece::OfNumber(n) => decimal_length(n),
        Piece::OfRange(p, q) => decimal_length(p) + 1 + decimal_length(q),
        Piece::OfAny => 3,
    }
}

fn put_range(p: u32, q: u32, out: &mut [u8], at: usize) -> usize
    requires { at + length (decimal p ++ bytes "-" ++ decimal q) ≤ length out.old }
    ensures out_after { out.new ≡ put_at out.old at (decimal p ++ bytes "-" ++ decimal q) }
    ensures value { result ≡ at + length (decimal p ++ bytes "-" ++ decimal q) }
{
    let dash = put_decimal(out, at, p);
    let second = put(out, dash, b"-");
    put_decimal(out, second, q)
}

// A format string with what it names, in order; `types` is how many of the first types must be measured for it.
#[derive(Clone, Copy)]
struct Message<'a> {
    image: &'a [u8],
    table: &'a [u16],
    format: &'a [u8],
    pieces: &'a [Piece],
    types: usize,
}

const FEW: usize = 64;

const MANY: usize = STRUCTURED + MOST_NODES;

impl Message<'_> {
    // Its length, up to the cap: the plain bytes of the format are known by its length and its gaps.
    fn total(&self, lens: &[usize], cap: usize) -> usize
        requires ready { IsReady self.now }
        requires sized { Sized self.now.table.now cap lens.now self.now.types }
        ensures { result ≡ clipped cap (length (whole_text self.now)) }
    {
        let mut size = clip(0, self.format.len() - self.pieces.len(), cap);
        for piece in self.pieces {
            size = clip(size, piece_size(*piece, lens), cap);
        }
        size
    }

    // Each size of the array has a function of its own: a small one is soon filled. A fill with 1 is faster than one
    // with 0.
    fn measured_in<const ROOM: usize>(&self, cap: usize) -> usize
        requires ready { IsReady self.now }
        requires types_bound { self.now.types ≤ ROOM }
        requires room_bound { ROOM ≤ most_numbers }
        ensures { result ≡ clipped cap (length (whole_text self.now)) }
    {
        let mut lens = [1usize; ROOM];
        measure(self.table, self.types, cap, &mut lens);
        self.total(&lens, cap)
    }

    fn measured(&self, cap: usize) -> usize
        requires { IsReady self.now }
        ensures { result ≡ clipped cap (length (whole_text self.now)) }
    {
        if self.types <= FEW {
            self.measured_in::<FEW>(cap)
        } else {
            self.measured_in::<MANY>(cap)
        }
    }

    fn put_piece(&self, k: usize, out: &mut [u8], at: usize) -> usize
        requires ready { IsReady self.now }
        requires k_bound { k < length self.now.pieces.now }
        requires in_bounds { at + length (piece_text self.now k) ≤ length out.old }
        ensures out_after { out.new ≡ put_at out.old at (piece_text self.now k) }
        ensures value { result ≡ at + length (piece_text self.now k) }
    {
        match self.pieces[k] {
            Piece::Nothing => at,
            Piece::OfType(i) => put_type(self.table, i, out, at),
            Piece::OfText(start, len) => put(out, at, part_of_text(self.image, start, len)),
            Piece::OfNumber(n) => put_decimal(out, at, n),
            Piece::OfRange(p, q) => put_range(p, q, out, at),
            Piece::OfAny => put(out, at, b"any"),
        }
    }

    fn fill_in(&self, out: &mut [u8]) -> usize
        requires ready { IsReady self.now }
        requires in_bounds { length (whole_text self.now) ≤ length out.old }
        ensures out_after { out.new ≡ put_at out.old 0 (whole_text self.now) }
        ensures value { result ≡ length (whole_text self.now) }
    {
        let mut at = 0;
        let mut k = 0;
        for c in self.format {
            if *c == GAP {
                at = self.put_piece(k, out, at);
                k += 1;
            } else {
                out[at] = *c;
                at += 1;
            }
        }
        at
    }

    // One more than the room is the cap: it stands for every length that does not fit.
    fn deliver(&self, out: &mut [u8]) -> usize
        requires { IsReady self.now }
        ensures value { result ≡ length (fitting (length out.old) (whole_text self.now)) }
        ensures out_after { out.new ≡ overlaid (fitting (length out.old) (whole_text self.now)) out.old }
    {
        let room = out.len();
        if room < self.measured(room + 1) {
            return 0;
        }
        self.fill_in(out)
    }
}

// By T's format string of the code.
fn tell(
    image: &[u8],
    table: &[u16],
    code: Code,
    pieces: &[Piece],
    types: usize,
    out: &mut [u8],
) -> usize
    requires ready { Ready image.now table.now types pieces.now }
    requires many { gaps (format_of (code_number code)) ≡ length pieces.now }
    ensures value { result ≡ length (laid_out image.now table.now pieces.now (format_of (code_number code)) out.old) }
    ensures out_after { out.new ≡ overlaid
        (laid_out image.now table.now pieces.now (format_of (code_number code)) out.old) out.old }
{
    let mut format = [0u8; LONGEST];
    let length = put_format(code, &mut format);
    let message = Message {
        image,
        table,
        format: &format[..length],
        pieces,
        types,
    };
    message.deliver(out)
}

// The message of a code.
fn write_of(
    image: &[u8],
    table: &[u16],
    counts: Counts,
    code: Code,
    a: usize,
    b: usize,
    out: &mut [u8],
) -> usize
    requires headed { Headed image.now }
    requires image_value { broken_name image.now ≡ none }
    requires tells { Tells (tab table.now counts.types counts.elements) (code_number code) a b }
    ensures value { result ≡ length (told image.now
        (tab table.now counts.types counts.elements) (code_number code) a b (length out.old)) }
    ensures out_after { out.new ≡ overlaid (told image.now
        (tab table.now counts.types counts.elements) (code_number code) a b (length out.old))
        out.old }
{
    match code {
        Code::IncompatibleBranches => tell(image, table, code, &[spelled(image, a)], 0, out),
        Code::UnpackLength => {
            let lengths = [Piece::OfNumber(a as u32), Piece::OfNumber(b as u32)];
            tell(image, table, code, &lengths, 0, out)
        }
        Code::BuiltinArity => {
            let given = Piece::OfNumber(b as u32);
            tell(
                image,
                table,
                code,
                &[spelled(image, a), arity(image, a), given],
                0,
                out,
            )
        }
        Code::FunctionArity => {
            let given = Piece::OfNumber(b as u32);
            tell(
                image,
                table,
                code,
                &[spelled(image, a), taken_by(image, a), given],
                0,
                out,
            )
        }
        Code::NotIterable
        | Code::UnpackNonIterable
        | Code::IntOrFloat
        | Code::ExpectedBool
        | Code::Input
        | Code::Len
        | Code::Range
        | Code::MapFirst
        | Code::MapSecond
        | Code::FilterFirst
        | Code::FilterSecond
        | Code::ListIndex
        | Code::TupleIndex
        | Code::StringIndex
        | Code::NotSubscriptable => { tell(image, table, code, &[Piece::OfType(a)], a + 1, out) }
        Code::InconsistentReturn
        | Code::CannotAssign
        | Code::Plus
        | Code::Times
        | Code::Compare
        | Code::Equality
        | Code::NumericPair
        | Code::DictKey => {
            let types = [Piece::OfType(a), Piece::OfType(b)];
            tell(image, table, code, &types, a.max(b) + 1, out)
        }
        Code::Break | Code::Continue | Code::InvalidTarget | Code::Condition => {
            tell(image, table, code, &[], 0, out)
        }
    }
}

// The message of a refusal, at the front of `out` if it fits: returns its length, or 0 and changes nothing. `a` and
// `b` are the numbers of the types that it names; for 26 its two counts; for 23, 37 and 38 a name's number and a count.
// A number that is no code has no message.
pub fn write(
    image: &[u8],
    table: &[u16],
    counts: Counts,
    code: u32,
    a: usize,
    b: usize,
    out: &mut [u8],
) -> usize
    requires headed { Headed image.now }
    requires image_value { broken_name image.now ≡ none }
    requires tells { Tells (tab table.now counts.types counts.elements) code a b }
    ensures value { result ≡ length (told image.now
        (tab table.now counts.types counts.elements) code a b (length out.old)) }
    ensures out_after { out.new ≡ overlaid (told image.now
        (tab table.now counts.types counts.elements) code a b (length out.old))
        out.old }
{
    match Code::try_from(code) {
        Ok(code) => write_of(image, table, counts, code, a, b, out),
        Err(NoCode) => 0,
    }
}
