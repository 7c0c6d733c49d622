// The load rule, and what other languages call of it, of `show`, of `steady` and of `convert`. "A script loads unseen
// exactly when it is accepted and its type sheet equals the last approved sheet, byte for byte." Nothing is asked of
// the caller.
#![tactic(auto)]

ghost use Rattle.std.specs.Prelude.{◌≡◌, length};
ghost use Rattle.meaning.specs.Answer.{answer};
ghost use Rattle.meaning.specs.Convert.{convert_answer};
ghost use Rattle.meaning.specs.Known.{faulty, steadiness};
ghost use Rattle.meaning.specs.Load.{loading_number};
ghost use Rattle.meaning.specs.Show.{show_answer, changes_answer};
ghost use Rattle.checker.specs.Answers.{numbers_of};
ghost use Rattle.image.specs.Outcome.{fault_in};
ghost use Rattle.show.specs.Words.{Tells};
ghost use Rattle.load.specs.Rule.{kind_of, numbers_told, Decided, Decides, verdict_means, Numbered};
ghost use Rattle.convert.specs.Outcome.{Hands};
ghost use Rattle.load.specs.Steadiness.{steady_numbers, steady_means};
ghost use Rattle.load.specs.Conversion.{converted_means};

use checker::{Answer, NO_SHEET, Refused, SHORT_BUFFER, check, replied};
use convert::Unconverted;
use image::{Fault, Numbers};
use show::{Telling, Untold};
use words::same;

// An accepted script loads unseen, or someone must look at its sheet: with the length of the sheet.
#[derive(Clone, Copy, PartialEq, Eq)]
pub enum Loading {
    Loads(usize),
    Look(usize),
}

// How an accepted script loads, or the check's refusal.
pub type Decision = Result<Loading, Refused>;

// Checks an image under a setting and decides whether it loads. The two buffers are left as `check` leaves them, so
// that whoever must look finds the sheet at the front of its buffer.
pub fn load(
    setting: u32,
    image: &[u8],
    approved: &[u8],
    sheet: &mut [u8],
    message: &mut [u8],
) -> Decision
    ensures { Decided
        (answer setting image.now (length sheet.old) (length message.old))
        approved.now result
        sheet.old sheet.new message.old message.new }
{
    let n = check(setting, image, sheet, message)?;
    if same(&sheet[..n], approved) {
        return Ok(Loading::Loads(n));
    }
    Ok(Loading::Look(n))
}

// ---- for C and Rust: the static library `load_c` exports these

// The case, 0 loads, 1 look and 2 refused, and the check's answer in the scope's numbers.
#[repr(C)]
#[derive(Clone, Copy)]
pub struct Verdict {
    pub loading: u32,
    pub code: u32,
    pub span_start: u32,
    pub span_end: u32,
    pub second_start: u32,
    pub second_end: u32,
    pub place: usize,
    pub sheet_length: usize,
    pub message_length: usize,
}

// The cases' numbers.
const LOADS: u32 = 0;

const LOOK: u32 = 1;

const REFUSED: u32 = 2;

// A case, with the check's answer.
fn told_as(loading: u32, a: Answer) -> Verdict
    ensures { (result.loading ≡ loading) × (verdict_means result ≡ numbers_of a) }
{
    let p = replied(a);
    Verdict {
        loading,
        code: p.code,
        span_start: p.span_start,
        span_end: p.span_end,
        second_start: p.second_start,
        second_end: p.second_end,
        place: p.place,
        sheet_length: p.sheet_length,
        message_length: p.message_length,
    }
}

fn decided(d: Decision) -> Verdict
    ensures { (result.loading ≡ loading_number (kind_of d)) × (verdict_means result ≡ numbers_told d) }
{
    match d {
        Ok(Loading::Loads(n)) => told_as(LOADS, Ok(n)),
        Ok(Loading::Look(n)) => told_as(LOOK, Ok(n)),
        Err(r) => told_as(REFUSED, Err(r)),
    }
}

// `load` for other languages.
pub fn cablebirch_load(
    setting: u32,
    image: &[u8],
    approved: &[u8],
    sheet: &mut [u8],
    message: &mut [u8],
) -> Verdict
    ensures { Decides
        (answer setting image.now (length sheet.old) (length message.old))
        approved.now result.loading (verdict_means result)
        sheet.old sheet.new message.old message.new }
{
    decided(load(setting, image, approved, sheet, message))
}

// ---- a sheet in words, for C and Rust

// Code 0 with the length of the text, 10 or 12.
#[repr(C)]
#[derive(Clone, Copy)]
pub struct Words {
    pub code: u32,
    pub length: usize,
}

fn in_numbers(t: Telling) -> Words
    ensures { Numbered t result }
{
    match t {
        Ok(length) => Words { code: 0, length },
        Err(Untold::NoRoom) => Words {
            code: SHORT_BUFFER,
            length: 0,
        },
        Err(Untold::NoSheet) => Words {
            code: NO_SHEET,
            length: 0,
        },
    }
}

// `show::show` for other languages.
pub fn cablebirch_show(sheet: &[u8], out: &mut [u8]) -> Words
    ensures { Tells (show_answer sheet.now (length out.old))
        result.code result.length out.old out.new }
{
    in_numbers(show::show(sheet, out))
}

// `show::changes` for other languages.
pub fn cablebirch_changes(old: &[u8], new: &[u8], out: &mut [u8]) -> Words
    ensures { Tells (changes_answer old.now new.now (length out.old))
        result.code result.length out.old out.new }
{
    in_numbers(show::changes(old, new, out))
}

// ---- whether a Def stands inside an If, for C and Rust

// Steady 1 and all else 0, for a program with no Def inside an If; steady 0 and code 0 with the first such Def and its
// span; or steady 0 with the code 1 to 8 and its place, for bytes that are no image.
#[repr(C)]
#[derive(Clone, Copy)]
pub struct Steady {
    pub steady: u32,
    pub code: u32,
    pub span_start: u32,
    pub span_end: u32,
    pub place: usize,
}

const STEADY: u32 = 1;

const UNSTEADY: u32 = 0;

// A fault of the bytes.
fn blamed(f: Fault) -> Steady
    ensures { steady_means result ≡ steady_numbers (faulty (fault_in f)) }
{
    let n = Numbers::from(f);
    Steady {
        steady: UNSTEADY,
        code: n.code,
        span_start: 0,
        span_end: 0,
        place: n.place,
    }
}

// `steady::steady` for other languages.
pub fn cablebirch_steady(image: &[u8]) -> Steady
    ensures { steady_means result ≡ steady_numbers (steadiness image.now) }
{
    match steady::steady(image) {
        Ok(None) => Steady {
            steady: STEADY,
            code: 0,
            span_start: 0,
            span_end: 0,
            place: 0,
        },
        Ok(Some(d)) => Steady {
            steady: UNSTEADY,
            code: 0,
            span_start: d.begins,
            span_end: d.ends,
            place: d.node,
        },
        Err(f) => blamed(f),
    }
}

// ---- the converter, for C and Rust

// Code 0 with the length of the image that was written; 1 to 8 with its place, for bytes that are no image; or 15.
#[repr(C)]
#[derive(Clone, Copy)]
pub struct Converted {
    pub code: u32,
    pub place: usize,
    pub length: usize,
}

const SHORT_OUTPUT: u32 = 15;

// `convert::convert` for other languages.
pub fn cablebirch_convert(image: &[u8], out: &mut [u8]) -> Converted
    ensures { Hands (convert_answer image.now (length out.old))
        (converted_means result) out.old out.new }
{
    match convert::convert(image, out) {
        Ok(length) => Converted {
            code: 0,
            place: 0,
            length,
        },
        Err(Unconverted::Faulty(f)) => {
            let n = Numbers::from(f);
            Converted {
                code: n.code,
                place: n.place,
                length: 0,
            }
        }
        Err(Unconverted::ShortOutput) => Converted {
            code: SHORT_OUTPUT,
            place: 0,
            length: 0,
        },
    }
}
