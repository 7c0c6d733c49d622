// What the words behind the program's name ask for, and what each verb says, over slices: the bytes for standard
// output and the status. The program `cablebirch` reads the files and writes what is said.
#![tactic(auto, unfolding(crate::proofs::Open::tests_open), using(std::proofs::lemmas::Bool::Decides::nat_tests))]

ghost use Rattle.std.specs.Prelude.{◌≡◌, true, ◌+◌, ◌<◌, ◌≤◌, length};
ghost use Rattle.meaning.specs.Limits.{sheet_buffer, message_buffer, largest_show, largest_changes};
ghost use Rattle.meaning.specs.Read.{is_sheet};
ghost use Rattle.meaning.specs.Answer.{answer};
ghost use Rattle.meaning.specs.Convert.{convert_answer};
ghost use Rattle.meaning.specs.Show.{changes_text, changes as changes_of};
ghost use Rattle.line.specs.Printing.{Fronted};
ghost use Rattle.words.specs.Words.{Wrote};
ghost use Rattle.meaning.specs.Known.{def_in_if};
ghost use Rattle.steady.specs.Told.{meant};
ghost use Rattle.verbs.specs.Words.{verb_of, with_file, with_word, setting_if, known_asked};
ghost use Rattle.verbs.specs.Words.{kind_of as kind_told, command_of as command_asked};
ghost use Rattle.verbs.specs.Said.{status_number, status_of, Says, span_text, first_text, check_said, line_room};
ghost use Rattle.verbs.specs.Said.{known_text, known_line, known_room, known_said, Writes, Renews};
ghost use Rattle.verbs.specs.Said.{show_said, compared_as, changes_said, names_in, look_text};
ghost use Rattle.verbs.specs.Said.{load_said, load_room};

use checker::{PLAIN, STRICT, read_sheet, replied};
use codes;
use image::Fault;
use limits::{LARGEST_CHANGES, MESSAGE_BUFFER, SHEET_BUFFER};
use line::{put_spaced, refused_line};
use load::{Loading, cablebirch_convert};
use steady::{Def, steady};
use words::{put, text};

// ---- the words

#[derive(Clone, Copy)]
pub enum Verb {
    Check,
    Sheet,
    Show,
    Changes,
    Load,
    Convert,
    Help,
    Nothing,
}

#[tactic(auto, using(crate::proofs::Texts::verbs))]
pub fn verb_told(word: &[u8]) -> Verb
    ensures { result ≡ verb_of word.now }
{
    match word {
        b"check" => Verb::Check,
        b"sheet" => Verb::Sheet,
        b"show" => Verb::Show,
        b"changes" => Verb::Changes,
        b"load" => Verb::Load,
        b"convert" => Verb::Convert,
        b"help" => Verb::Help,
        _ => Verb::Nothing,
    }
}

// What a word behind the verb is.
#[derive(Clone, Copy)]
pub enum Kind {
    Strict,
    Known,
    Input,
    Name,
    Unknown,
}

// `-` alone is standard input. No name begins with a `-`, so that a misspelt `--strict` is not taken for a file.
#[tactic(auto, using(crate::proofs::Texts::kinds))]
pub fn kind_of(word: &[u8]) -> Kind
    ensures { result ≡ kind_told word.now }
{
    match word {
        b"--strict" => Kind::Strict,
        b"--known" => Kind::Known,
        b"-" => Kind::Input,
        [b'-', ..] => Kind::Unknown,
        _ => Kind::Name,
    }
}

// The numbers of the arguments that name files; no verb takes three.
#[derive(Clone, Copy)]
pub enum Files {
    None,
    One(usize),
    Two(usize, usize),
    Wrong,
}

fn with_file(files: Files, a: usize) -> Files
    ensures { result ≡ with_file files a }
{
    match files {
        Files::None => Files::One(a),
        Files::One(i) => Files::Two(i, a),
        Files::Two(_, _) | Files::Wrong => Files::Wrong,
    }
}

// What the words behind the verb say so far: strict, whether known stays known, a file that is standard input, and the
// files.
#[derive(Clone, Copy)]
pub struct Asked {
    pub strict: bool,
    pub known: bool,
    pub input: bool,
    pub files: Files,
}

// `--strict` may stand once, and so may `--known` and `-`.
pub fn with_word(w: Asked, a: usize, kind: Kind) -> Asked
    ensures { result ≡ with_word w a kind }
{
    match kind {
        Kind::Strict => Asked {
            strict: true,
            files: if w.strict { Files::Wrong } else { w.files },
            ..w
        },
        Kind::Known => Asked {
            known: true,
            files: if w.known { Files::Wrong } else { w.files },
            ..w
        },
        Kind::Input => Asked {
            input: true,
            files: if w.input {
                Files::Wrong
            } else {
                with_file(w.files, a)
            },
            ..w
        },
        Kind::Name => Asked {
            files: with_file(w.files, a),
            ..w
        },
        Kind::Unknown => Asked {
            files: Files::Wrong,
            ..w
        },
    }
}

// What is to be done: settings, and the numbers of the arguments that name the files.
#[derive(Clone, Copy)]
pub enum Command {
    CheckImage(u32, usize),
    CheckKnown(u32, usize),
    WriteSheet(u32, usize),
    ShowSheet(usize),
    TellChanges(usize, usize),
    LoadImage(u32, usize, usize),
    ConvertImage(usize),
    Usage,
    NoVerb,
    BadWords,
}

fn setting_of(strict: bool) -> u32
    ensures { result ≡ setting_if strict }
{
    if strict { STRICT } else { PLAIN }
}

// `--known` stands there, and `check` alone tells that.
fn known_asked(verb: Verb, w: Asked) -> Command
    ensures { result ≡ known_asked verb w }
{
    match (verb, w.files) {
        (Verb::Check, Files::One(i)) => Command::CheckKnown(setting_of(w.strict), i),
        (Verb::Nothing, _) => Command::NoVerb,
        _ => Command::BadWords,
    }
}

// A verb and the number of its files must fit, and only what checks an image may be strict.
pub fn command_of(verb: Verb, w: Asked) -> Command
    ensures { result ≡ command_asked verb w }
{
    if w.known {
        return known_asked(verb, w);
    }
    let setting = setting_of(w.strict);
    match (verb, w.files) {
        (Verb::Check, Files::One(i)) => Command::CheckImage(setting, i),
        (Verb::Sheet, Files::One(i)) => Command::WriteSheet(setting, i),
        (Verb::Load, Files::Two(i, j)) => Command::LoadImage(setting, i, j),
        (Verb::Show, Files::One(i)) if !w.strict => Command::ShowSheet(i),
        (Verb::Changes, Files::Two(i, j)) if !w.strict => Command::TellChanges(i, j),
        (Verb::Convert, Files::One(i)) if !w.strict => Command::ConvertImage(i),
        (Verb::Help, Files::None) if !w.strict => Command::Usage,
        (Verb::Nothing, _) => Command::NoVerb,
        _ => Command::BadWords,
    }
}

// ---- what is said

// Accepted, equal or loaded; changed; refused; and what could not be done.
#[derive(Clone, Copy)]
pub enum Status {
    Fine,
    Changed,
    Refused,
    Misused,
}

pub fn digit_of(status: Status) -> u8
    ensures { result ≡ 48 + status_number status }
{
    b'0' + status as u8
}

fn status_of(code: u32) -> Status
    ensures { result ≡ status_of code }
{
    if code == 0 {
        Status::Fine
    } else {
        Status::Refused
    }
}

// How many bytes for standard output stand at the front of the buffer that was lent.
#[derive(Clone, Copy)]
pub struct Done {
    pub length: usize,
    pub status: Status,
}

// Room for the line of an image, around whose message stand fewer than 64 bytes, and for that of its first place.
pub const LINE: usize = 64 + 40 + MESSAGE_BUFFER;

// Room for the line that tells whether known stays known, and for that behind the others.
const KNOWN_LINE: usize = 60;

pub const KNOWN: usize = LINE + KNOWN_LINE;

// Room for `look` and what changed.
pub const LOAD: usize = 5 + LARGEST_CHANGES;

// A span, at the end of a line.
fn put_span(out: &mut [u8], at: usize, start: u32, end: u32) -> usize
    requires { at + 23 ≤ length out.old }
    ensures wrote { Wrote out.old at (span_text start end) out.new result }
    ensures upper_bound { result ≤ at + 23 }
{
    let first = put_spaced(out, at, start);
    let second = put_spaced(out, first, end);
    put(out, second, b"\n")
}

// 25 and 23 "point at the first place too": a line more, with the second span.
fn put_first(out: &mut [u8], at: usize, code: u32, start: u32, end: u32) -> usize
    requires { at + 40 ≤ length out.old }
    ensures wrote { Wrote out.old at (first_text code start end) out.new result }
    ensures upper_bound { result ≤ at + 40 }
{
    match code {
        codes::CANNOT_ASSIGN | codes::INCOMPATIBLE_BRANCHES => {
            let words = put(out, at, b"first set here");
            put_span(out, words, start, end)
        }
        _ => at,
    }
}

pub fn say_check(setting: u32, image: &[u8], out: &mut [u8]) -> Done
    requires { line_room ≤ length out.old }
    ensures says { Says (check_said (answer setting image.now sheet_buffer message_buffer))
        out.old out.new result }
    ensures length_in_bounds { result.length ≤ length out.new }
    ensures length_le_line_room { result.length ≤ line_room }
{
    let mut sheet = [0u8; SHEET_BUFFER];
    let mut message = [0u8; MESSAGE_BUFFER];
    let p = line::of_image(setting, image, &mut sheet, &mut message, out);
    let status = status_of(p.code);
    let length = put_first(out, p.length, p.code, p.second_start, p.second_end);
    Done { length, status }
}

// A Def inside an If: in plain its errors are passed over and its variables left behind, so that what is known may
// change; strict returns them.
fn put_def(out: &mut [u8], at: usize, setting: u32, def: Def) -> usize
    requires { at + known_line ≤ length out.old }
    ensures { Wrote out.old at
        (known_text setting (def_in_if def.node def.begins def.ends)) out.new result }
{
    if setting == STRICT {
        return put(out, at, b"known stays known: strict\n");
    }
    let words = put(out, at, b"known may change: def inside an if");
    put_span(out, words, def.begins, def.ends)
}

// Whether "known stays known", and why; nothing of what is no image.
fn put_known(out: &mut [u8], at: usize, setting: u32, s: Result<Option<Def>, Fault>) -> usize
    requires { at + known_line ≤ length out.old }
    ensures { Wrote out.old at (known_text setting (meant s)) out.new result }
{
    match s {
        Ok(None) => put(out, at, b"known stays known: no def inside an if\n"),
        Ok(Some(def)) => put_def(out, at, setting, def),
        Err(_) => at,
    }
}

// What `check` says, and that.
pub fn say_known(setting: u32, image: &[u8], out: &mut [u8]) -> Done
    requires { known_room ≤ length out.old }
    ensures says { Says (known_said setting image.now) out.old out.new result }
    ensures length_in_bounds { result.length ≤ length out.new }
{
    let done = say_check(setting, image, out);
    let status = done.status;
    let length = put_known(out, done.length, setting, steady(image));
    Done { length, status }
}

// How many bytes of what was written, a sheet or an image, go to standard output, and how many of a refusal's lines to
// standard error.
#[derive(Clone, Copy)]
pub struct Written {
    pub length: usize,
    pub line: usize,
    pub status: Status,
}

pub fn write_sheet(setting: u32, image: &[u8], sheet: &mut [u8], out: &mut [u8]) -> Written
    requires { line_room ≤ length out.old }
    ensures writes { Writes (answer setting image.now (length sheet.old) message_buffer)
        sheet.old sheet.new out.old out.new result }
    ensures sheet_in_bounds { (result.length ≤ length sheet.new) × (result.line ≤ length out.new) }
{
    let mut message = [0u8; MESSAGE_BUFFER];
    let p = line::of_image(setting, image, sheet, &mut message, out);
    let line = put_first(out, p.length, p.code, p.second_start, p.second_end);
    if p.code == 0 {
        return Written {
            length: p.sheet,
            line: 0,
            status: Status::Fine,
        };
    }
    Written {
        length: p.sheet,
        line,
        status: Status::Refused,
    }
}

// Nothing is checked: a refusal is one of the codes 1 to 8, or 15, and has no span and no message.
pub fn renew(image: &[u8], new: &mut [u8], out: &mut [u8]) -> Written
    requires { 64 ≤ length out.old }
    ensures renews { Renews (convert_answer image.now (length new.old))
        new.old new.new out.old out.new result }
    ensures image_in_bounds { (result.length ≤ length new.new) × (result.line ≤ length out.new) }
{
    let c = cablebirch_convert(image, new);
    if c.code == 0 {
        return Written {
            length: c.length,
            line: 0,
            status: Status::Fine,
        };
    }
    Written {
        length: c.length,
        line: refused_line(c.code, line::word(c.place), 0, 0, b"", out),
        status: Status::Refused,
    }
}

// What is no sheet has nothing to show.
const NOTHING_SHOWN: Done = Done {
    length: 0,
    status: Status::Refused,
};

pub fn say_show(sheet: &[u8], out: &mut [u8]) -> Done
    requires { largest_show ≤ length out.old }
    ensures says { Says (show_said sheet.now) out.old out.new result }
    ensures length_in_bounds { result.length ≤ length out.new }
{
    match show::show(sheet, out) {
        Ok(length) => Done {
            length,
            status: Status::Fine,
        },
        Err(_) => NOTHING_SHOWN,
    }
}

// Whether anything changed, by how much is told of it.
fn changed_by(length: usize) -> Status
    ensures { result ≡ compared_as 0 length }
{
    if length == 0 {
        Status::Fine
    } else {
        Status::Changed
    }
}

pub fn say_changes(old: &[u8], new: &[u8], out: &mut [u8]) -> Done
    requires { largest_changes ≤ length out.old }
    ensures says { Says (changes_said old.now new.now)
        out.old out.new result }
    ensures length_in_bounds { result.length ≤ length out.new }
{
    match show::changes(old, new, out) {
        Ok(length) => Done {
            length,
            status: changed_by(length),
        },
        Err(_) => NOTHING_SHOWN,
    }
}

// ---- the load rule

// The sheet of no names is a header alone: version 1; no types, elements, names and texts, each area behind the 40
// bytes of the header; 40 bytes in all.
const NO_NAMES: [u8; 40] =
    *b"\x01\0\0\0\0\0\0\0\x28\0\0\0\0\0\0\0\x28\0\0\0\0\0\0\0\x28\0\0\0\0\0\0\0\x28\0\0\0\x28\0\0\0";

// What changed from the approved sheet. Where that is none, every name is new.
fn put_changed(approved: &[u8], sheet: &[u8], out: &mut [u8]) -> usize
    requires sheet_value { is_sheet sheet.now ≡ true }
    requires largest_changes_in_bounds { largest_changes ≤ length out.old }
    ensures { Fronted
        (changes_text (changes_of (names_in approved.now) (names_in sheet.now)))
        out.old out.new result }
{
    let told = match read_sheet(approved) {
        Ok(()) => show::changes(approved, sheet, out),
        Err(_) => show::changes(&NO_NAMES, sheet, out),
    };
    told.unwrap_or(0)
}

fn put_look(approved: &[u8], sheet: &[u8], out: &mut [u8]) -> usize
    requires sheet_value { is_sheet sheet.now ≡ true }
    requires load_room_in_bounds { load_room ≤ length out.old }
    ensures { Fronted (look_text approved.now sheet.now)
        out.old out.new result }
{
    let mut told = [0u8; LARGEST_CHANGES];
    let n = put_changed(approved, sheet, &mut told);
    let at = put(out, 0, b"look\n");
    put(out, at, text(&told, 0, n))
}

pub fn say_load(setting: u32, image: &[u8], approved: &[u8], out: &mut [u8]) -> Done
    requires { load_room ≤ length out.old }
    ensures says { Says
        (load_said (answer setting image.now sheet_buffer message_buffer) approved.now)
        out.old out.new result }
    ensures length_in_bounds { result.length ≤ length out.new }
{
    let mut sheet = [0u8; SHEET_BUFFER];
    let mut message = [0u8; MESSAGE_BUFFER];
    match load::load(setting, image, approved, &mut sheet, &mut message) {
        Ok(Loading::Loads(_)) => Done {
            length: put(out, 0, b"loads\n"),
            status: Status::Fine,
        },
        Ok(Loading::Look(n)) => Done {
            length: put_look(approved, text(&sheet, 0, n), out),
            status: Status::Changed,
        },
        Err(refused) => {
            let p = replied(Err(refused));
            let line = line::write(
                p.code,
                line::word(p.place),
                p.span_start,
                p.span_end,
                text(&sheet, 0, p.sheet_length),
                text(&message, 0, p.message_length),
                out,
            );
            Done {
                length: put_first(out, line, p.code, p.second_start, p.second_end),
                status: Status::Refused,
            }
        }
    }
}
