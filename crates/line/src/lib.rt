// The one line that the program prints for an image: what was accepted, or why it was refused.
#![tactic(auto)]

ghost use Rattle.std.specs.Prelude.{◌≡◌, [], ◌∷◌, ◌+◌, ◌*◌, ◌<◌, ◌≤◌, length};
ghost use Rattle.meaning.specs.Answer.{answer, overlaid};
ghost use Rattle.meaning.specs.Line.{spaced, accepted_line, refused_line, line_of};
ghost use Rattle.line.specs.Printing.{Printable, answered, or_dash, Lined, SecondTold};
ghost use Rattle.words.specs.Words.{Wrote};

use checker::cablebirch_check;
use sheet::header;
use words::{get_word, put, put_decimal, text};

// ---- the pieces: each returns where it ends in `out`

pub fn put_spaced(out: &mut [u8], at: usize, n: u32) -> usize
    requires { at + 11 ≤ length out.old }
    ensures wrote { Wrote out.old at (spaced (n ∷ [])) out.new result }
    ensures upper_bound { result ≤ at + 11 }
{
    let number = put(out, at, b" ");
    put_decimal(out, number, n)
}

// Each number after a space.
fn put_numbers(out: &mut [u8], at: usize, numbers: &[u32]) -> usize
    requires { at + 11 * length numbers.now ≤ length out.old }
    ensures wrote { Wrote out.old at (spaced numbers.now) out.new result }
    ensures upper_bound { result ≤ at + 11 * length numbers.now }
{
    let mut end = at;
    for n in numbers {
        end = put_spaced(out, end, *n);
    }
    end
}

fn or_dash(message: &[u8]) -> &[u8]
    ensures { result.now ≡ or_dash message.now }
{
    if message.is_empty() { b"-" } else { message }
}

// ---- the two lines

fn accepted_line(sheet: &[u8], out: &mut [u8]) -> usize
    requires in_bounds { 40 ≤ length sheet.now }
    requires sheet_len_bound { length sheet.now < 4294967296 }
    requires in_bounds_2 { 64 ≤ length out.old }
    ensures wrote { Wrote out.old 0 (accepted_line sheet.now) out.new result }
    ensures upper_bound { result ≤ 64 }
{
    let names = get_word(sheet, header::NAME_COUNT);
    let types = get_word(sheet, header::TYPE_COUNT);
    let numbers = put(out, 0, b"accepted");
    let end = put_numbers(out, numbers, &[names, types, sheet.len() as u32]);
    put(out, end, b"\n")
}

pub fn refused_line(
    code: u32,
    place: u32,
    begins: u32,
    ends: u32,
    message: &[u8],
    out: &mut [u8],
) -> usize
    requires { 64 + length message.now ≤ length out.old }
    ensures wrote { Wrote out.old 0
        (refused_line (answered code place begins ends [] message.now)) out.new result }
    ensures upper_bound { result ≤ 64 + length message.now }
{
    let numbers = put(out, 0, b"refused");
    let space = put_numbers(out, numbers, &[code, place, begins, ends]);
    let text = put(out, space, b" ");
    let end = put(out, text, or_dash(message));
    put(out, end, b"\n")
}

// `sheet` and `message` are the parts of the two buffers that were written. Returns the length of the line.
pub fn write(
    code: u32,
    place: u32,
    begins: u32,
    ends: u32,
    sheet: &[u8],
    message: &[u8],
    out: &mut [u8],
) -> usize
    requires { Printable code sheet.now message.now out.old }
    ensures out_after { out.new ≡ overlaid
        (line_of (answered code place begins ends sheet.now message.now)) out.old }
    ensures value { result ≡ length
        (line_of (answered code place begins ends sheet.now message.now)) }
    ensures upper_bound { result ≤ 64 + length message.now }
{
    if code == 0 {
        accepted_line(sheet, out)
    } else {
        refused_line(code, place, begins, ends, message, out)
    }
}

// ---- the line of an image

// How long the line is, and the answer's code, second span and sheet length, for whoever goes on with them.
#[derive(Clone, Copy)]
pub struct Printed {
    pub length: usize,
    pub code: u32,
    pub second_start: u32,
    pub second_end: u32,
    pub sheet: usize,
}

// As a call of its own, a place that is a word asks its proof here alone.
pub fn word(n: usize) -> u32
    requires { n < 4294967296 }
    ensures { result ≡ n }
{
    n as u32
}

// Checks an image under a setting with the two buffers for its sheet and its message, and puts the line for it at the
// front of `out`.
pub fn of_image(
    setting: u32,
    image: &[u8],
    sheet: &mut [u8],
    message: &mut [u8],
    out: &mut [u8],
) -> Printed
    requires { 64 + length message.old ≤ length out.old }
    ensures lined { Lined
        (answer setting image.now (length sheet.old) (length message.old))
        out.old out.new sheet.old sheet.new
        message.old message.new result.length result.code result.sheet }
    ensures second_told { SecondTold
        (answer setting image.now (length sheet.old) (length message.old))
        result.second_start result.second_end }
    ensures length_bound { result.length ≤ 64 + length message.old }
{
    let a = cablebirch_check(setting, image, sheet, message);
    let length = write(
        a.code,
        word(a.place),
        a.span_start,
        a.span_end,
        text(sheet, 0, a.sheet_length),
        text(message, 0, a.message_length),
        out,
    );
    Printed {
        length,
        code: a.code,
        second_start: a.second_start,
        second_end: a.second_end,
        sheet: a.sheet_length,
    }
}
