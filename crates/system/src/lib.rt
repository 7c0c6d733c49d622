// What the programs ask of the system: the words behind their names, as bytes, which need not be text; and a reader's
// bytes, as far as a buffer goes.
#![tactic(auto)]

ghost use Rattle.std.specs.Prelude.{◌≤◌, length, IfOk};

use std::env::{Env, FillError};
use std::io::Read;

// Word a, put at the front of buf; the program's name is word 0. Or why it is not: it is missing, or longer than buf.
pub fn word_given<'a, R: Env>(rt: &R, a: usize, buf: &'a mut [u8]) -> Result<&'a [u8], FillError>
    ensures { IfOk result (λ w. length w.now ≤ length buf.old) }
{
    let n = rt.arg(a, buf)?;
    Ok(&buf[..n])
}

// The same, where a word that is missing, or longer than buf, counts as the empty one.
pub fn word_at<'a, R: Env>(rt: &R, a: usize, buf: &'a mut [u8]) -> &'a [u8]
    ensures { length result.now ≤ length buf.old }
{
    word_given(rt, a, buf).unwrap_or(b"")
}

// How many words there are, the program's name among them, counted no further than `most`.
pub fn count_up_to<R: Env>(rt: &R, most: usize) -> usize
    ensures { result ≤ most }
{
    let mut block = [0u8; 1];
    for a in 0..most {
        if let Err(FillError::NotPresent) = rt.arg(a, &mut block) {
            return a;
        }
    }
    most
}

// Reads until the buffer is full, the input ends or a read fails, and gives how much stands at its front.
pub fn read_full<R: Read>(from: &mut R, buf: &mut [u8]) -> usize
    ensures { result ≤ length buf.new }
{
    let mut length = 0;
    while length < buf.len() {
        match from.read(&mut buf[length..]) {
            Ok(0) => return length,
            Ok(n) => length += n,
            Err(_) => return length,
        }
    }
    length
}
