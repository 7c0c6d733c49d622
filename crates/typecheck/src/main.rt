// Reads a program image on standard input and prints the one line of its answer. The word behind the program's name is
// the setting: none or `plain`, or `strict`; anything else gets code 13.
#![tactic(auto)]

ghost use Rattle.std.specs.Prelude.{◌≤◌, length};
ghost use Rattle.typecheck.specs.Words.{Told, line_room, Shows};

use checker::{PLAIN, STRICT};
use limits::{MESSAGE_BUFFER, READ_AT_MOST, SHEET_BUFFER};
use system::{count_up_to, word_at};

// A number that is none of the two settings.
const NO_SETTING: u32 = 2;

// Room for the line: what stands around its message has fewer than 64 bytes.
const LINE: usize = 64 + MESSAGE_BUFFER;

const STDIN: i32 = 0;

const STDOUT: i32 = 1;

// The setting's number, by how many arguments there are, the program's name among them, and the first word behind it.
#[tactic(auto, using(crate::proofs::Words::settings))]
fn setting_told(arguments: usize, word: &[u8]) -> u32
    ensures { Told arguments word.now result }
{
    match arguments {
        0 | 1 => PLAIN,
        2 => match word {
            b"plain" => PLAIN,
            b"strict" => STRICT,
            _ => NO_SETTING,
        },
        _ => NO_SETTING,
    }
}

// The line for the program's arguments and what stands on standard input, at the front of `out`. "Its message buffer
// has 1,024 bytes, its sheet buffer 42,532."
fn print_line(arguments: usize, word: &[u8], input: &[u8], out: &mut [u8]) -> usize
    requires { line_room ≤ length out.old }
    ensures shows { Shows arguments word.now input.now
        out.old out.new result }
    ensures upper_bound { result ≤ length out.new }
{
    let setting = setting_told(arguments, word);
    let mut sheet = [0u8; SHEET_BUFFER];
    let mut message = [0u8; MESSAGE_BUFFER];
    let p = line::of_image(setting, input, &mut sheet, &mut message, out);
    p.length
}

// No more arguments than these are told apart: none, one word behind the program's name, or more.
const TOLD_APART: usize = 3;

fn main(rt: HostRuntime) {
    let mut buf = io::buffer();
    let word = word_at(&rt, 1, &mut buf);
    let mut input = [0u8; READ_AT_MOST];
    let n = io::read_full(STDIN, &mut input);
    let mut out = [0u8; LINE];
    let arguments = count_up_to(&rt, TOLD_APART);
    let length = print_line(arguments, word, &input[..n], &mut out);
    io::write_all(STDOUT, &out[..length]);
}
