// Runs the stored list of T's answers against the checker, and speaks the oracle's batch form, so that any other list
// goes through the same proved code. `replay stored` reads the list beside it and prints what differs and how many
// agree. `replay` prints the line of each image of a batch on standard input, `replay strict` the same in strict,
// `replay tight` in the rooms of the tight list, and `replay sheets` the line of each sheet. Behind document 01's
// printed line an image's has what that does not tell: the checksum of the sheet, and of 25 and 23 the second span.
#![tactic(auto)]

ghost use Rattle.std.specs.Prelude.{◌≡◌, ◌+◌, ◌*◌, ◌%◌, ◌^◌, ◌<◌, ◌≤◌, true, length, IfOk, IfSome};
ghost use Rattle.line.specs.Printing.{Fronted};
ghost use Rattle.words.specs.Words.{Wrote};
ghost use Rattle.meaning.specs.Limits.{sheet_buffer, message_buffer};
ghost use Rattle.replay.specs.Lines.{line_room, fnv_of, hex_of, checksum, second_span, checked_line};
ghost use Rattle.replay.specs.Lines.{read_line, sheet_line, line_for};

use checker::{PLAIN, STRICT, cablebirch_write_sheet};
use codes;
use limits::{LARGEST_SHEET, MESSAGE_BUFFER, READ_AT_MOST, SHEET_BUFFER};
use line::put_spaced;
use sheet::header;
use std::env::FillError;
use std::fs::File;
use std::io::{Read, Seek, SeekFrom};
use system::{read_full, word_given};
use words::{get_word, put, put_decimal, text};

// Room for a line: what stands around its message has fewer than 128 bytes.
const LINE: usize = MESSAGE_BUFFER + 128;

// The rooms of the tight list.
const TIGHT_SHEET: usize = 98;

const TIGHT_MESSAGE: usize = 69;

// ---- the checksum

// FNV-1a 64 starts with this.
const OFFSET_BASIS: u64 = 14695981039346656037;

const FNV_PRIME: u64 = 1099511628211;

// The digits of a checksum.
const DIGITS: usize = 16;

// "For each byte xor it in, then multiply modulo 2^64."
fn fnv(s: &[u8]) -> u64
    ensures { result ≡ fnv_of s.now }
{
    s.iter().fold(
        OFFSET_BASIS,
        |h, b| (h ^ u64::from(*b)).wrapping_mul(FNV_PRIME),
    )
}

fn put_hex(out: &mut [u8], at: usize, n: u64) -> usize
    requires { at + 16 ≤ length out.old }
    ensures wrote { Wrote out.old at (hex_of n) out.new result }
    ensures value { result ≡ at + 16 }
{
    let mut digits = [0u8; DIGITS];
    let count = io::hex(n, DIGITS, &mut digits);
    put(out, at, &digits[..count])
}

// The checksum of a sheet and the line's end.
fn put_checksum(out: &mut [u8], at: usize, sheet: &[u8]) -> usize
    requires { at + 19 ≤ length out.old }
    ensures { Wrote out.old at (checksum sheet.now) out.new result }
{
    let digits = put(out, at, b" #");
    let end = put_hex(out, digits, fnv(sheet));
    put(out, end, b"\n")
}

// ---- the second span

// As ` @0,1`, and the line's end.
fn put_second(out: &mut [u8], at: usize, start: u32, end: u32) -> usize
    requires { at + 24 ≤ length out.old }
    ensures { Wrote out.old at (second_span start end) out.new result }
{
    let first = put(out, at, b" @");
    let comma = put_decimal(out, first, start);
    let second = put(out, comma, b",");
    let last = put_decimal(out, second, end);
    put(out, last, b"\n")
}

// ---- the lines

// No code of a refusal: the image was accepted, or the sheet was read.
const ACCEPTED: u32 = 0;

// The line of an image under a setting, in the rooms of the two buffers that are lent, and what it does not tell in the
// place of its end: the checksum of the sheet, or the second span.
fn summed_line(
    setting: u32,
    image: &[u8],
    sheet: &mut [u8],
    message: &mut [u8],
    out: &mut [u8],
) -> usize
    requires sheet_len_bound { (length sheet.old ≤ sheet_buffer) × (length message.old ≤ message_buffer) }
    requires line_room_in_bounds { line_room ≤ length out.old }
    ensures { Fronted
        (checked_line setting image.now (length sheet.old) (length message.old))
        out.old out.new result }
{
    let p = line::of_image(setting, image, sheet, message, out);
    let length = p.length;
    let code = p.code;
    match code {
        ACCEPTED => put_checksum(out, length - 1, text(sheet, 0, p.sheet)),
        codes::CANNOT_ASSIGN | codes::INCOMPATIBLE_BRANCHES => {
            put_second(out, length - 1, p.second_start, p.second_end)
        }
        _ => length,
    }
}

fn image_line(
    setting: u32,
    image: &[u8],
    sheet_room: usize,
    message_room: usize,
    out: &mut [u8],
) -> usize
    requires sheet_room_le_sheet_buffer { (sheet_room ≤ sheet_buffer) × (message_room ≤ message_buffer) }
    requires line_room_in_bounds { line_room ≤ length out.old }
    ensures { Fronted (checked_line setting image.now sheet_room message_room)
        out.old out.new result }
{
    let mut sheet = [0u8; SHEET_BUFFER];
    let mut message = [0u8; MESSAGE_BUFFER];
    summed_line(
        setting,
        image,
        &mut sheet[..sheet_room],
        &mut message[..message_room],
        out,
    )
}

fn read_line(sheet: &[u8], out: &mut [u8]) -> usize
    requires in_bounds { 40 ≤ length sheet.now }
    requires in_bounds_2 { 64 ≤ length out.old }
    ensures { Wrote out.old 0 (read_line sheet.now) out.new result }
{
    let names = get_word(sheet, header::NAME_COUNT);
    let types = get_word(sheet, header::TYPE_COUNT);
    let numbers = put(out, 0, b"read");
    let second = put_spaced(out, numbers, names);
    let end = put_spaced(out, second, types);
    put_checksum(out, end, sheet)
}

// The line is that of what was written again from what was read, so it speaks of the reader and of the writer.
fn sheet_line(sheet: &[u8], out: &mut [u8]) -> usize
    requires { line_room ≤ length out.old }
    ensures { Fronted (sheet_line sheet.now) out.old out.new result }
{
    let mut again = [0u8; LARGEST_SHEET];
    let p = cablebirch_write_sheet(sheet, &mut again);
    let code = p.code;
    if code == ACCEPTED {
        return read_line(text(&again, 0, p.sheet_length), out);
    }
    line::write(code, 0, 0, 0, text(&again, 0, 0), text(&again, 0, 0), out)
}

// What a batch holds, the setting and the rooms.
#[derive(Clone, Copy)]
pub enum Task {
    Images,
    Strict,
    Tight,
    Sheets,
}

fn line_of(task: Task, bytes: &[u8], out: &mut [u8]) -> usize
    requires { line_room ≤ length out.old }
    ensures fronted { Fronted (line_for task bytes.now) out.old out.new result }
    ensures upper_bound { result ≤ length out.new }
{
    match task {
        Task::Images => image_line(PLAIN, bytes, SHEET_BUFFER, MESSAGE_BUFFER, out),
        Task::Strict => image_line(STRICT, bytes, SHEET_BUFFER, MESSAGE_BUFFER, out),
        Task::Tight => image_line(PLAIN, bytes, TIGHT_SHEET, TIGHT_MESSAGE, out),
        Task::Sheets => sheet_line(bytes, out),
    }
}

// Two lines agree exactly if they are the same bytes.
fn agrees(ours: &[u8], theirs: &[u8]) -> bool
    ensures { (result ≡ true → ours.now ≡ theirs.now)
        × (ours.now ≡ theirs.now → result ≡ true) }
{
    ours == theirs
}

// ---- a batch: each record behind its length, a word

const HEAD: usize = 4;

// What `io::buffer` has room for.
const BLOCK: usize = 4096;

// A file ends within a record or a line.
#[derive(Clone, Copy)]
struct CutShort;

// Reads over so many bytes of a record for which there was no room, and answers whether they were there.
fn skip<R: Read>(from: &mut R, length: usize) -> bool {
    for at in (0..length).step_by(BLOCK) {
        let mut block = io::buffer();
        let wanted = BLOCK.min(length - at);
        if read_full(from, &mut block[..wanted]) < wanted {
            return false;
        }
    }
    true
}

// How much of the next record stands in the buffer; None where the batch ends.
// A record that is longer than the buffer is cut. Its line is the same, if the buffer has 59,937 bytes: `line_cut` in
// proofs/Cutting.antt. That what stands in the buffer is the record's front is believed, as `std` promises no bytes.
fn next<R: Read>(from: &mut R, buf: &mut [u8]) -> Result<Option<usize>, CutShort>
    ensures { IfOk result (λ r. IfSome r (λ n. n ≤ length buf.new)) }
{
    let mut head = [0u8; HEAD];
    match read_full(from, &mut head) {
        0 => return Ok(None),
        HEAD => {}
        _ => return Err(CutShort),
    }
    let length = get_word(&head, 0) as usize;
    let kept = length.min(buf.len());
    if read_full(from, &mut buf[..kept]) < kept || !skip(from, length - kept) {
        return Err(CutShort);
    }
    Ok(Some(kept))
}

const STDOUT: i32 = 1;

fn say(text: &[u8]) {
    io::write_all(STDOUT, text);
}

// Why a run stops before its end.
#[derive(Clone, Copy)]
enum Broken {
    BatchCut,
    AnswersCut,
    MoreAnswers,
}

fn say_broken(broken: Broken) {
    match broken {
        Broken::BatchCut => say(b"the batch is cut short\n"),
        Broken::AnswersCut => say(b"the answers are cut short\n"),
        Broken::MoreAnswers => say(b"there are more answers than records\n"),
    }
}

// The line of the next record of standard input; whether to go on.
fn print_next<R: Read>(task: Task, input: &mut R, buf: &mut [u8], out: &mut [u8]) -> bool
    requires { line_room ≤ length out.old }
{
    match next(input, buf) {
        Ok(Some(length)) => {
            let n = line_of(task, &buf[..length], out);
            io::write_all(STDOUT, &out[..n])
        }
        Ok(None) => false,
        Err(CutShort) => {
            say_broken(Broken::BatchCut);
            false
        }
    }
}

// A proved loop has to end, and nothing says that the input does: it counts its turns up to a number that no batch
// reaches.
fn print_lines<R: Read>(task: Task, input: &mut R) {
    let mut buf = [0u8; READ_AT_MOST];
    let mut out = [0u8; LINE];
    for _ in 0..u64::MAX {
        if !print_next(task, input, &mut buf, &mut out) {
            return;
        }
    }
}

// ---- the stored list

// The length of the first line with its end, if a line ends here.
fn line_length(s: &[u8]) -> Option<usize>
    ensures { IfSome result (λ n. n ≤ length s.now) }
{
    let end = s.iter().position(|b| *b == b'\n')?;
    Some(end + 1)
}

// How much of a file stands in the buffer, from there on: nothing of a file that is not open or cannot be read.
fn read_at(file: &mut Option<File>, at: u32, buf: &mut [u8]) -> Option<usize>
    ensures { IfSome result (λ n. n ≤ length buf.new) }
{
    let open = file.as_mut()?;
    open.seek(SeekFrom::Start(u64::from(at))).ok()?;
    open.read(buf).ok()
}

// The length of the line that begins there; None where the list ends.
fn line_at(answers: &mut Option<File>, at: u32, buf: &mut [u8]) -> Result<Option<usize>, CutShort>
    ensures { IfOk result (λ r. IfSome r (λ n. n ≤ length buf.new)) }
{
    match read_at(answers, at, buf) {
        None | Some(0) => Ok(None),
        Some(n) => match line_length(&buf[..n]) {
            Some(m) => Ok(Some(m)),
            None => Err(CutShort),
        },
    }
}

// The lengths of a record and of its answer; None where the list ends with both.
fn pair(
    entry: Result<Option<usize>, CutShort>,
    line: Result<Option<usize>, CutShort>,
) -> Result<Option<(usize, usize)>, Broken>
    ensures { IfOk result (λ r. IfSome r (λ p. (entry ≡ Ok (Some p.0)) × (line ≡ Ok (Some p.1)))) }
{
    match (entry, line) {
        (Err(CutShort), _) => Err(Broken::BatchCut),
        (Ok(Some(n)), Ok(Some(m))) => Ok(Some((n, m))),
        (Ok(Some(_)), _) => Err(Broken::AnswersCut),
        (Ok(None), Ok(None)) => Ok(None),
        (Ok(None), _) => Err(Broken::MoreAnswers),
    }
}

fn say_record(task: Task) {
    match task {
        Task::Images => say(b"image "),
        Task::Strict => say(b"strict image "),
        Task::Tight => say(b"tight image "),
        Task::Sheets => say(b"sheet "),
    }
}

// Of sheets T knows nothing: there the oracle's reader is the judge. In strict it is T with its dropped errors handed
// on.
fn say_judge(task: Task) {
    match task {
        Task::Sheets => say(b" / reader "),
        _ => say(b" / T "),
    }
}

// As `image 17: ours accepted 0 0 40 #41d22a8c2066ae0c / T refused 7 0 0 0 -`. The judge's line brings the line's end.
fn tell(task: Task, number: u32, ours: &[u8], theirs: &[u8]) {
    say_record(task);
    io::print_decimal(STDOUT, u64::from(number));
    say(b": ours ");
    if let [front @ .., _] = ours {
        say(front);
    }
    say_judge(task);
    say(theirs);
}

// What came of one entry of the list, and where the next answer begins.
#[derive(Clone, Copy)]
struct Step {
    agreed: bool,
    at: u32,
}

// The next record of a file; of one that is not open there is none.
fn next_of(records: &mut Option<File>, buf: &mut [u8]) -> Result<Option<usize>, CutShort>
    ensures { IfOk result (λ r. IfSome r (λ n. n ≤ length buf.new)) }
{
    match records {
        Some(open) => next(open, buf),
        None => Ok(None),
    }
}

// None where the list ends.
fn replay_next(
    task: Task,
    records: &mut Option<File>,
    answers: &mut Option<File>,
    number: u32,
    at: u32,
    buf: &mut [u8],
) -> Result<Option<Step>, Broken>
    requires { at + line_room < 4294967296 }
    ensures { IfOk result (λ r. IfSome r (λ step. step.at ≤ at + line_room)) }
{
    let mut ours = [0u8; LINE];
    let mut theirs = [0u8; LINE];
    let entry = next_of(records, buf);
    let line = line_at(answers, at, &mut theirs);
    let Some((n, m)) = pair(entry, line)? else {
        return Ok(None);
    };
    let length = line_of(task, &buf[..n], &mut ours);
    let our = &ours[..length];
    let their = &theirs[..m];
    let agreed = agrees(our, their);
    if !agreed {
        tell(task, number, our, their);
    }
    Ok(Some(Step {
        agreed,
        at: at + m as u32,
    }))
}

#[derive(Clone, Copy)]
struct Tally {
    agreed: u32,
    differ: u32,
}

// A proved loop has to end: the list has some thousands of entries, far from this limit.
const MOST_ENTRIES: u32 = 1000000;

fn replay_all(task: Task, records: &mut Option<File>, answers: &mut Option<File>) -> Tally
    ensures { (result.agreed ≤ 1000000) × (result.differ ≤ 1000000) }
{
    let mut buf = [0u8; READ_AT_MOST];
    let mut tally = Tally {
        agreed: 0,
        differ: 0,
    };
    let mut at = 0;
    for number in 0..MOST_ENTRIES {
        match replay_next(task, records, answers, number, at, &mut buf) {
            Ok(Some(step)) => {
                at = step.at;
                if step.agreed {
                    tally.agreed += 1;
                } else {
                    tally.differ += 1;
                }
            }
            Ok(None) => return tally,
            Err(broken) => {
                say_broken(broken);
                return tally;
            }
        }
    }
    tally
}

fn opened(rt: &HostRuntime, path: &str) -> Option<File> {
    let file = File::open(rt, path).ok();
    if file.is_none() {
        say(path.as_bytes());
        say(b" cannot be opened\n");
    }
    file
}

fn replay_files(rt: &HostRuntime, task: Task, records: &str, answers: &str) -> Tally
    ensures { (result.agreed ≤ 1000000) × (result.differ ≤ 1000000) }
{
    let mut records = opened(rt, records);
    let mut answers = opened(rt, answers);
    replay_all(task, &mut records, &mut answers)
}

fn replay_stored(rt: &HostRuntime) {
    let images = replay_files(rt, Task::Images, "images.batch", "answers.txt");
    let strict = replay_files(rt, Task::Strict, "images.batch", "strict-answers.txt");
    let tight = replay_files(rt, Task::Tight, "tight-images.batch", "tight-answers.txt");
    let sheets = replay_files(rt, Task::Sheets, "sheets.batch", "sheets-answers.txt");
    io::print_decimal(
        STDOUT,
        (images.agreed + strict.agreed + tight.agreed + sheets.agreed) as u64,
    );
    say(b" agreed, ");
    io::print_decimal(
        STDOUT,
        (images.differ + strict.differ + tight.differ + sheets.differ) as u64,
    );
    say(b" differ\n");
}

fn main(rt: HostRuntime) {
    let mut word = io::buffer();
    match word_given(&rt, 1, &mut word) {
        Err(FillError::NotPresent) => print_lines(Task::Images, &mut rt.stdin()),
        Ok(b"strict") => print_lines(Task::Strict, &mut rt.stdin()),
        Ok(b"tight") => print_lines(Task::Tight, &mut rt.stdin()),
        Ok(b"sheets") => print_lines(Task::Sheets, &mut rt.stdin()),
        Ok(b"stored") => replay_stored(&rt),
        _ => say(b"usage: replay [strict | tight | sheets | stored]\n"),
    }
}
