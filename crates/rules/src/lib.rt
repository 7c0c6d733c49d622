// What one node of an expression decides, given the types of its children: the rules of T's tc_expr, without its walk.
#![tactic(auto, using(types::proofs::Readers::known_room, crate::proofs::Operations::read_kind))]

ghost use Rattle.std.specs.Prelude.{◌≡◌, ◌<◌, Err};
ghost use Rattle.meaning.specs.Decode.{unary_of, binary_of};
ghost use Rattle.meaning.specs.Operators.{unary_rule, binary_rule};
ghost use Rattle.types.specs.Table.{tab, capacity, denote, Made};
ghost use Rattle.types.specs.Reading.{Known, IsNumber};
ghost use Rattle.codes.specs.Codes.{code_number};
ghost use Rattle.rules.specs.Outcome.{types_named, because};
ghost use Rattle.rules.specs.Leaves.{OfOne, OfTwo, OfNumber, Expected, Keyed, Indexed};
ghost use Rattle.rules.specs.Leaves.{prompt_rule, sized_rule, bound_rule, callable_rule};
ghost use Rattle.rules.specs.Leaves.{ListStep, JoinedOf, DictStep};
ghost use Rattle.rules.specs.Leaves.{StreamedOf, stream_type, second_code, Asks, Streams};

use codes::Code;
use operators::{Answer, answer_of, unary_answer_of};
use types;
use types::{Counts, Formed, Kind, common_of, element_of, form, kind_of, part_of, second_of};

// A refusal as it is decided: its code and the two numbers that its message needs.
#[derive(Clone, Copy)]
pub struct Reason {
    pub code: Code,
    pub a: usize,
    pub b: usize,
}

// What T's `SemanticResult<Ty>` is here: the number of a type, or why there is none.
pub type Decision = Result<usize, Reason>;

fn refused(code: Code, a: usize, b: usize) -> Decision
    ensures { result ≡ Err (because code a b) }
{
    Err(Reason { code, a, b })
}

// ---- operators

pub fn unary(table: &[u16], op: u32, i: usize) -> Decision
    requires op_bound { op < 3 }
    requires known { Known table.now i }
    ensures { OfOne table.now (λ n. unary_rule n (unary_of op)) i result }
{
    match unary_answer_of(op, kind_of(table, i).number() as u32) {
        Ok(ty) => Ok(ty),
        Err(code) => refused(code, i, 0),
    }
}

// Whether the whole types are equal their numbers tell.
pub fn binary(table: &[u16], op: u32, left: usize, right: usize) -> Decision
    requires op_bound { op < 14 }
    requires known { (Known table.now left) × (Known table.now right) }
    ensures { OfTwo table.now (λ n. binary_rule n (binary_of op)) left right result }
{
    let answer = answer_of(
        op,
        kind_of(table, left).number() as u32,
        kind_of(table, right).number() as u32,
    );
    match answer {
        Answer::Type(ty) => Ok(ty),
        Answer::Whole if left == right => Ok(types::BOOL),
        Answer::Whole => refused(Code::Equality, left, right),
        Answer::Refused(code) => refused(code, left, right),
    }
}

// ---- List and Dict

// "List stops at the first mismatch": the element type after one more element, or none where the List ends, of Unknown.
pub fn list_step(so_far: usize, next: usize) -> Option<usize>
    ensures { ListStep so_far next result }
{
    if so_far == types::UNKNOWN || so_far == next {
        Some(next)
    } else {
        None
    }
}

// Unknown gives way, equal stays, a mismatch is Unknown.
fn joined_of(a: usize, b: usize) -> usize
    ensures { JoinedOf a b result }
{
    if a == types::UNKNOWN || a == b {
        b
    } else {
        types::UNKNOWN
    }
}

// The types of a Dict's keys and values.
#[derive(Clone, Copy)]
pub struct Pair {
    pub key: usize,
    pub value: usize,
}

// "Dict stops only when key and value are both Unknown after a pair": the types after one more pair, or none where the
// Dict ends, of Unknown and Unknown.
pub fn dict_step(so_far: Pair, next: Pair) -> Option<Pair>
    ensures { DictStep so_far next result }
{
    let key = joined_of(so_far.key, next.key);
    let value = joined_of(so_far.value, next.value);
    if key != types::UNKNOWN || value != types::UNKNOWN {
        Some(Pair { key, value })
    } else {
        None
    }
}

// ---- one argument of a builtin

// Type i where the type `wanted` or Unknown is expected: the type `result`, or the code.
fn expect(wanted: usize, i: usize, code: Code, res: usize) -> Decision
    ensures { Expected wanted i (code_number code) res result }
{
    if i == wanted || i == types::UNKNOWN {
        Ok(res)
    } else {
        refused(code, i, 0)
    }
}

// The one argument of `input`.
pub fn prompt(a: usize) -> Decision
    ensures { OfNumber prompt_rule a result }
{
    expect(types::STRING, a, Code::Input, types::STRING)
}

// An argument of `range`.
pub fn bound(a: usize) -> Decision
    ensures { OfNumber bound_rule a result }
{
    expect(types::INT, a, Code::Range, types::INT)
}

// The first argument of `map` (code 42) or `filter` (code 44).
pub fn callable(a: usize, code: Code) -> Decision
    requires { types_named (code_number code) ≡ 1 }
    ensures { OfNumber (callable_rule (code_number code)) a result }
{
    expect(types::FUNCTION, a, code, a)
}

// The first argument of `len`.
pub fn len(table: &[u16], a: usize) -> Decision
    requires { a < capacity table.now }
    ensures { OfOne table.now sized_rule a result }
{
    match kind_of(table, a) {
        Kind::Unknown | Kind::String | Kind::List | Kind::Dict | Kind::Tuple => Ok(types::INT),
        _ => refused(Code::Len, a, 0),
    }
}

// ---- Index

// An index of type i into a Dict of keys of type `wanted` and values of type `value`.
fn key(wanted: usize, i: usize, value: usize) -> Decision
    ensures { Keyed wanted i value result }
{
    if i == wanted || i == types::UNKNOWN || wanted == types::UNKNOWN {
        Ok(value)
    } else {
        refused(Code::DictKey, wanted, i)
    }
}

pub fn index(table: &[u16], object: usize, index: usize) -> Decision
    requires { Known table.now object }
    ensures { Indexed table.now object index result }
{
    match kind_of(table, object) {
        Kind::Unknown => Ok(types::UNKNOWN),
        Kind::String => expect(types::INT, index, Code::StringIndex, types::STRING),
        Kind::List => expect(types::INT, index, Code::ListIndex, part_of(table, object)),
        Kind::Dict => key(part_of(table, object), index, second_of(table, object)),
        Kind::Tuple => expect(
            types::INT,
            index,
            Code::TupleIndex,
            common_of(table, object),
        ),
        _ => refused(Code::NotSubscriptable, object, 0),
    }
}

// ---- the second argument of map and filter

// What a walk over a value of type i gives: "map refuses Dict and Tuple", and filter does as map.
fn streamed_of(table: &[u16], i: usize) -> Option<usize>
    requires { IsNumber table.now i }
    ensures { StreamedOf table.now i result }
{
    match kind_of(table, i) {
        Kind::Dict | Kind::Tuple => None,
        _ => element_of(table, i),
    }
}

fn second_code(filters: bool) -> Code
    ensures { code_number result ≡ second_code filters }
{
    if filters {
        Code::FilterSecond
    } else {
        Code::MapSecond
    }
}

// The FilterIter of an element type, or the MapIter of Unknown.
fn iterator(table: &mut [u16], counts: Counts, filters: bool, element: usize) -> Formed
    requires { Asks (tab table.old counts.types counts.elements) element }
    ensures { Made (tab table.old counts.types counts.elements)
        (tab table.new result.counts.types result.counts.elements)
        result.number
        (stream_type filters (denote (tab table.old counts.types counts.elements) element))
        0 }
{
    if filters {
        form(table, counts, Kind::FilterIter, element, types::NO_PART)
    } else {
        form(table, counts, Kind::MapIter, types::UNKNOWN, types::NO_PART)
    }
}

// A decision, and the counts of the table that has its type.
#[derive(Clone, Copy)]
pub struct Streamed {
    pub decision: Decision,
    pub counts: Counts,
}

pub fn stream(table: &mut [u16], counts: Counts, filters: bool, b: usize) -> Streamed
    requires { Asks (tab table.old counts.types counts.elements) b }
    ensures { Streams (tab table.old counts.types counts.elements)
        (tab table.new result.counts.types result.counts.elements)
        filters
        b
        result.decision }
{
    let Some(element) = streamed_of(table, b) else {
        return Streamed {
            decision: refused(second_code(filters), b, 0),
            counts,
        };
    };
    let formed = iterator(table, counts, filters, element);
    Streamed {
        decision: Ok(formed.number),
        counts: formed.counts,
    }
}
