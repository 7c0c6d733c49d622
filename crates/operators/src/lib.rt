// What an operator answers, by the kinds of its operands.
#![tactic(auto)]

ghost use Rattle.std.specs.Prelude.{◌≡◌, ◌<◌, length, get_or};
ghost use Rattle.operators.specs.Answer.{Says, SaysUnary};
ghost use Rattle.meaning.specs.Operators.{operator_answer, unary_answer};
ghost use Rattle.meaning.specs.Decode.{binary_of, unary_of};
ghost use Rattle.operators.specs.Fold.{pairs, PlaceOf};

mod constants;

use codes::Code;
use constants::{ANSWERS, UNARY_ANSWERS};

// What an operator answers by kinds: a plain type, by its number; that the whole types must be equal; or a refusal.
#[derive(Clone, Copy, PartialEq, Eq)]
pub enum Answer {
    Type(usize),
    Whole,
    Refused(Code),
}

// The entry that says: compare the whole types.
const WHOLE: u8 = 8;

// How many pairs of kinds in order there are below a kind: so many answers stand before its own in a row.
fn pairs_below(kind: u32) -> u32
    requires { kind < 13 }
    ensures { result ≡ length (pairs kind) }
{
    kind * (kind + 1) / 2
}

// Where a row has the answer for two kinds (src/constants.rt says how a row is to be read). Here alone operands change
// round: the caller's stay as they are, and its message names the left one first.
fn place_of(left: u32, right: u32) -> usize
    requires { (left < 13) × (right < 13) }
    ensures { PlaceOf left right result }
{
    if right < left {
        return (pairs_below(left) + right) as usize;
    }
    (pairs_below(right) + left) as usize
}

// An entry of row `op`, for the kinds of the operands. All numbers are u32, as they stand in the image.
fn entry_of(op: u32, left: u32, right: u32) -> u8
    requires { (op < 14) × (left < 13) × (right < 13) }
    ensures { result ≡ operator_answer (binary_of op) left right }
{
    ANSWERS[op as usize][place_of(left, right)]
}

// As entry_of, for the operators of one operand.
fn unary_entry_of(op: u32, kind: u32) -> u8
    requires { (op < 3) × (kind < 13) }
    ensures { result ≡ unary_answer (unary_of op) kind }
{
    UNARY_ANSWERS[op as usize][kind as usize]
}

// The answer of a binary operator for the kinds of its operands.
pub fn answer_of(op: u32, left: u32, right: u32) -> Answer
    requires { (op < 14) × (left < 13) × (right < 13) }
    ensures { Says result (operator_answer (binary_of op) left right) }
{
    match entry_of(op, left, right) {
        WHOLE => Answer::Whole,
        29 => Answer::Refused(Code::Plus),
        30 => Answer::Refused(Code::Times),
        31 => Answer::Refused(Code::Compare),
        32 => Answer::Refused(Code::Equality),
        33 => Answer::Refused(Code::NumericPair),
        plain => Answer::Type(usize::from(plain)),
    }
}

// The answer of a unary operator for the kind of its operand: a plain type, by its number, or a refusal.
pub fn unary_answer_of(op: u32, kind: u32) -> Result<usize, Code>
    requires { (op < 3) × (kind < 13) }
    ensures { SaysUnary result (unary_answer (unary_of op) kind) }
{
    match unary_entry_of(op, kind) {
        34 => Err(Code::IntOrFloat),
        35 => Err(Code::ExpectedBool),
        plain => Ok(usize::from(plain)),
    }
}
