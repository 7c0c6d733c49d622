// The program: an image checked, its sheet written, a sheet shown, two compared, the load rule, and a stored image
// converted, over files. What is asked and what is said stands in `verbs`; here files are read and the answers written.
// All of it is proved safe and ending, and no more, since no contract can say what is read or written. The status goes
// to descriptor 3 as one digit, and `main` ends with 0.
#![tactic(auto)]

ghost use denote.Ref.{Bor, MutBor};
ghost use Rattle.std.specs.Prelude.{◌≡◌, ℕ, List, ◌^◌, ◌<◌, ◌≤◌, length, IfOk};

use checker::read_sheet;
use limits::{LARGEST_CHANGES, LARGEST_SHOW, READ_AT_MOST, SHEET_BUFFER};
use std::env::FillError;
use std::fs::File;
use std::io::{Cursor, Error, Read, Write};
use system::{read_full, word_at, word_given};
use verbs::{
    Asked, Command, Done, Files, KNOWN, LINE, LOAD, Status, Verb, Written, command_of, digit_of,
    kind_of, renew, say_changes, say_check, say_known, say_load, say_show, verb_told, with_word,
    write_sheet,
};

// ---- the system's numbers of errors

// "No such file or directory"
const ENOENT: i32 = 2;

// "Permission denied"
const EACCES: i32 = 13;

// "Not a directory"
const ENOTDIR: i32 = 20;

// "Is a directory"
const EISDIR: i32 = 21;

// What a name is refused for that is no text, since std opens files by text alone.
const EILSEQ: i32 = 84;

// An error that has no number of the system's counts as this one: "Input/output error".
const EIO: i32 = 5;

fn number_of(error: &Error) -> i32 {
    error.raw_os_error().unwrap_or(EIO)
}

// ---- files

const STDERR: i32 = 2;

fn say(text: &[u8]) {
    io::write_all(STDERR, text);
}

// Where ` (os error 2)` begins behind the system's words, or where the text ends.
fn words_end(text: &[u8]) -> usize
    ensures { result ≤ length text.now }
{
    for i in 0..text.len() {
        if text[i..].starts_with(b" (os error ") {
            return i;
        }
    }
    text.len()
}

// Behind what failed, a colon and the system's words for the error.
fn say_failed(number: i32) {
    say(b": ");
    let mut words = Cursor::new([0u8; 256]);
    if write!(words, "{}", Error::from_raw_os_error(number)).is_ok() {
        let told = words.into_inner();
        let length = told
            .iter()
            .position(|byte| *byte == 0)
            .unwrap_or(told.len());
        let written = &told[..length];
        say(&written[..words_end(written)]);
    }
    say(b"\n");
}

// Why a file could not be read: by the error of the system, or since it grew behind the end that was read.
#[derive(Clone, Copy)]
enum Why {
    Failed(i32),
    Grew,
}

impl From<Error> for Why {
    fn from(error: Error) -> Why {
        Why::Failed(number_of(&error))
    }
}

// A file that could not be read, by the number of the argument that names it.
#[derive(Clone, Copy)]
struct Unread {
    file: usize,
    why: Why,
}

// The name of a file as it was given, for standard error.
fn say_name(rt: &HostRuntime, a: usize) {
    let mut name = io::buffer();
    say(b"cablebirch: ");
    match word_at(rt, a, &mut name) {
        b"-" => say(b"standard input"),
        name => say(name),
    }
}

// In the system's words, while it knows them.
fn say_unread(rt: &HostRuntime, unread: Unread) {
    say_name(rt, unread.file);
    match unread.why {
        Why::Failed(number) => say_failed(number),
        Why::Grew => say(b": it grew while it was read\n"),
    }
}

// How much of it stands in the buffer. `read_full` stops short at the end and at a read that fails: one more read tells
// them apart.
fn read_from<R: Read>(from: &mut R, buf: &mut [u8]) -> Result<usize, Why>
    ensures { IfOk result (λ n. n ≤ length buf.new) }
{
    let length = read_full(from, buf);
    let mut more = [0u8; 1];
    if length < buf.len() && 0 < from.read(&mut more)? {
        return Err(Why::Grew);
    }
    Ok(length)
}

// Reads the file of this name, or standard input.
fn read_named(rt: &HostRuntime, name: &[u8], buf: &mut [u8]) -> Result<usize, Why>
    ensures { IfOk result (λ n. n ≤ length buf.new) }
{
    match str::from_utf8(name) {
        Ok("-") => read_from(&mut rt.stdin(), buf),
        Ok(path) => read_from(&mut File::open(rt, path)?, buf),
        Err(_) => Err(Why::Failed(EILSEQ)),
    }
}

// The bytes of the file that argument a names.
fn read_file<'a>(rt: &HostRuntime, a: usize, buf: &'a mut [u8]) -> Result<&'a [u8], Unread>
    ensures { IfOk result (λ bytes. length bytes.now ≤ length buf.old) }
{
    let mut name = io::buffer();
    let name = word_at(rt, a, &mut name);
    match read_named(rt, name, buf) {
        Ok(n) => Ok(&buf[..n]),
        Err(why) => Err(Unread { file: a, why }),
    }
}

// Output that cannot be written in full counts as nothing done.
fn print(rt: &HostRuntime, text: &[u8], status: Status) -> Status {
    match rt.stdout().write_all(text) {
        Ok(()) => status,
        Err(e) => {
            say(b"cablebirch: standard output");
            say_failed(number_of(&e));
            Status::Misused
        }
    }
}

// ---- the verbs

// Reads the file that argument a names, and prints what is said of it in a buffer of ROOM bytes.
fn run_over<const ROOM: usize, F: FnOnce(&[u8], &mut [u8]) -> Done>(
    rt: &HostRuntime,
    a: usize,
    tell: F,
) -> Result<Status, Unread>
    requires room_fits { ROOM < 2 ^ 63 }
    requires takes_room { (file : Bor (List ℕ)) (out : MutBor (List ℕ))
        → length out.now ≡ ROOM → F.pre tell file out }
    requires stays_inside { (file : Bor (List ℕ)) (out out_after : MutBor (List ℕ)) (done : Done)
        → F.post tell file out done out_after → done.length ≤ length out_after.now }
{
    let mut file = [0u8; READ_AT_MOST];
    let file = read_file(rt, a, &mut file)?;
    let mut out = [0u8; ROOM];
    let done = tell(file, &mut out);
    Ok(print(rt, &out[..done.length], done.status))
}

// Reads the image that argument a names, and prints what is made of it in a buffer of ROOM bytes; a refusal's lines go
// to standard error.
fn run_made<const ROOM: usize, F: FnOnce(&[u8], &mut [u8], &mut [u8]) -> Written>(
    rt: &HostRuntime,
    a: usize,
    make: F,
) -> Result<Status, Unread>
    requires room_fits { ROOM < 2 ^ 63 }
    requires takes_line { (image : Bor (List ℕ)) (made out : MutBor (List ℕ))
        → length out.now ≡ LINE → F.pre make image made out }
    requires stay_inside { (image : Bor (List ℕ)) (made out made_after out_after : MutBor (List ℕ)) (w : Written)
        → F.post make image made out w made_after out_after
        → (w.length ≤ length made_after.now) × (w.line ≤ length out_after.now) }
{
    let mut image = [0u8; READ_AT_MOST];
    let image = read_file(rt, a, &mut image)?;
    let mut made = [0u8; ROOM];
    let mut out = [0u8; LINE];
    let w = make(image, &mut made, &mut out);
    say(&out[..w.line]);
    Ok(print(rt, &made[..w.length], w.status))
}

fn say_no_sheet(rt: &HostRuntime, a: usize) {
    say_name(rt, a);
    say(b" is no type sheet (12)\n");
}

fn run_show(rt: &HostRuntime, a: usize) -> Result<Status, Unread> {
    run_over::<LARGEST_SHOW, _>(rt, a, |sheet, out| {
        if read_sheet(sheet).is_err() {
            say_no_sheet(rt, a);
        }
        say_show(sheet, out)
    })
}

// The first of the two that is no sheet is told.
fn say_if_no_sheet(rt: &HostRuntime, a: usize, old: &[u8], b: usize, new: &[u8]) {
    if read_sheet(old).is_err() {
        say_no_sheet(rt, a);
    } else if read_sheet(new).is_err() {
        say_no_sheet(rt, b);
    }
}

fn run_changes(rt: &HostRuntime, a: usize, b: usize) -> Result<Status, Unread> {
    let mut old = [0u8; READ_AT_MOST];
    let old = read_file(rt, a, &mut old)?;
    let mut new = [0u8; READ_AT_MOST];
    let new = read_file(rt, b, &mut new)?;
    say_if_no_sheet(rt, a, old, b, new);
    let mut out = [0u8; LARGEST_CHANGES];
    let done = say_changes(old, new, &mut out);
    Ok(print(rt, &out[..done.length], done.status))
}

// The system's words for what keeps an approved sheet from being read. The line goes on behind them.
fn say_reason(error: i32) {
    match error {
        ENOENT => say(b"No such file or directory"),
        EACCES => say(b"Permission denied"),
        EISDIR => say(b"Is a directory"),
        ENOTDIR => say(b"Not a directory"),
        _ => say(b"it cannot be read"),
    }
}

// Why every name counts as new: nothing was approved yet, or what was is no sheet.
fn say_all_new(rt: &HostRuntime, a: usize, was: Result<&[u8], Unread>) {
    say_name(rt, a);
    match was {
        Ok(_) => say(b" is no type sheet (12)"),
        Err(unread) => match unread.why {
            Why::Failed(error) => {
                say(b": ");
                say_reason(error);
            }
            Why::Grew => say(b": it grew while it was read"),
        },
    }
    say(b": every name is new\n");
}

// An approved sheet that cannot be read counts as none.
fn run_load(rt: &HostRuntime, setting: u32, a: usize, b: usize) -> Result<Status, Unread> {
    let mut image = [0u8; READ_AT_MOST];
    let image = read_file(rt, b, &mut image)?;
    let mut sheet = [0u8; READ_AT_MOST];
    let was = read_file(rt, a, &mut sheet);
    let approved = was.unwrap_or(b"");
    let mut out = [0u8; LOAD];
    let done = say_load(setting, image, approved, &mut out);
    if matches!(done.status, Status::Changed) && read_sheet(approved).is_err() {
        say_all_new(rt, a, was);
    }
    Ok(print(rt, &out[..done.length], done.status))
}

fn run_help(rt: &HostRuntime) -> Status {
    print(
        rt,
        b"usage: cablebirch VERB ..   (a file `-` is standard input)\n  \
          check [--strict] [--known] IMAGE  accepted, or why not, and where a type was first set\n  \
          sheet [--strict] IMAGE            the type sheet of an accepted script\n  \
          show SHEET                        a sheet's names and types\n  \
          changes OLD NEW                   what changed between two sheets\n  \
          load [--strict] APPROVED IMAGE    loads, or look and what changed, or why it is refused\n  \
          convert IMAGE                     a stored image with its TreeSets made Sets\n  \
          help                              these lines\n\
          --known: whether a type, once known, stays: always with --strict, else if no def is inside an if\n\
          status: 0 accepted, equal, loads or converted; 1 changed or look; 2 refused or no sheet; 3 nothing done\n",
        Status::Fine,
    )
}

// ---- the words of the program

// What the word at this place adds, if there is one.
fn asked_at(rt: &HostRuntime, w: Asked, a: usize) -> Asked {
    let mut word = io::buffer();
    match word_given(rt, a, &mut word) {
        Err(FillError::NotPresent) => w,
        word => with_word(w, a, kind_of(word.unwrap_or(b""))),
    }
}

// The words behind the verb. No verb takes more than three, so that a fourth settles it (`five_words` in `verbs`).
fn words_asked(rt: &HostRuntime) -> Asked {
    let mut asked = Asked {
        strict: false,
        known: false,
        input: false,
        files: Files::None,
    };
    for a in 2..=5 {
        asked = asked_at(rt, asked, a);
    }
    asked
}

fn is_too_long(rt: &HostRuntime, a: usize) -> bool {
    let mut word = io::buffer();
    matches!(word_given(rt, a, &mut word), Err(FillError::TooLong))
}

fn verb_given(rt: &HostRuntime) -> Verb {
    let mut word = io::buffer();
    verb_told(word_at(rt, 1, &mut word))
}

fn say_no_verb(rt: &HostRuntime) {
    let mut word = io::buffer();
    if let Err(FillError::NotPresent) = word_given(rt, 1, &mut word) {
        say(b"cablebirch: a verb is missing; try cablebirch help\n");
    } else {
        say_name(rt, 1);
        say(b" is no verb; try cablebirch help\n");
    }
}

fn say_bad_words(verb: Verb) {
    match verb {
        Verb::Check => say(
            b"cablebirch: it must be check [--strict] [--known] IMAGE; try cablebirch help\n",
        ),
        Verb::Sheet => say(b"cablebirch: it must be sheet [--strict] IMAGE; try cablebirch help\n"),
        Verb::Show => say(b"cablebirch: it must be show SHEET; try cablebirch help\n"),
        Verb::Changes => say(
            b"cablebirch: it must be changes OLD NEW, one of them - at most; try cablebirch help\n",
        ),
        Verb::Load => say(
            b"cablebirch: it must be load [--strict] APPROVED IMAGE, one of them - at most; try cablebirch help\n",
        ),
        Verb::Convert => say(b"cablebirch: it must be convert IMAGE; try cablebirch help\n"),
        _ => say(b"cablebirch: it must be help alone; try cablebirch help\n"),
    }
}

fn run(rt: &HostRuntime, verb: Verb) -> Result<Status, Unread> {
    match command_of(verb, words_asked(rt)) {
        Command::CheckImage(setting, a) => {
            run_over::<LINE, _>(rt, a, |image, out| say_check(setting, image, out))
        }
        Command::CheckKnown(setting, a) => {
            run_over::<KNOWN, _>(rt, a, |image, out| say_known(setting, image, out))
        }
        Command::WriteSheet(setting, a) => {
            run_made::<SHEET_BUFFER, _>(
                rt,
                a,
                |image, sheet, out| write_sheet(setting, image, sheet, out),
            )
        }
        Command::ShowSheet(a) => run_show(rt, a),
        Command::TellChanges(a, b) => run_changes(rt, a, b),
        Command::LoadImage(setting, a, b) => run_load(rt, setting, a, b),
        Command::ConvertImage(a) => run_made::<READ_AT_MOST, _>(rt, a, renew),
        Command::Usage => Ok(run_help(rt)),
        Command::NoVerb => {
            say_no_verb(rt);
            Ok(Status::Misused)
        }
        Command::BadWords => {
            say_bad_words(verb);
            Ok(Status::Misused)
        }
    }
}

fn status_told(rt: &HostRuntime) -> Status {
    if (1..=4).any(|a| is_too_long(rt, a)) {
        say(b"cablebirch: a word is longer than 4,096 bytes; try cablebirch help\n");
        return Status::Misused;
    }
    match run(rt, verb_given(rt)) {
        Ok(status) => status,
        Err(unread) => {
            say_unread(rt, unread);
            Status::Misused
        }
    }
}

// Where the status goes.
const STATUS_FD: i32 = 3;

fn main(rt: HostRuntime) {
    let digit = [digit_of(status_told(&rt))];
    io::write_all(STATUS_FD, &digit);
}
