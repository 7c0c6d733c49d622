// Bytes and words: read, written, compared, copied, the texts of names, and numbers in decimal. Everything stands in a
// slice that the caller lends.
#![tactic(auto)]

ghost use Rattle.std.specs.Prelude.{◌≡◌, [], ◌∷◌, ◌+◌, ◌<◌, ◌≤◌, length, take, drop};
ghost use Rattle.meaning.specs.Base.{word, words, same_text, before as comes_before, decimal, all};
ghost use Rattle.meaning.specs.Image.{printable, text_stands};
ghost use Rattle.words.specs.Words.{put_at};

use limits::{LONGEST_NAME, WORD};

// ---- words of four bytes, the lowest byte first

pub fn get_word(s: &[u8], at: usize) -> u32
    requires { at + 4 ≤ length s.now }
    ensures { result ≡ word s.now at }
{
    u32::from_le_bytes([s[at], s[at + 1], s[at + 2], s[at + 3]])
}

pub fn put_word(buf: &mut [u8], at: usize, w: u32)
    requires { at + 4 ≤ length buf.old }
    ensures buf_after { buf.new ≡ put_at buf.old at (words (w ∷ [])) }
    ensures buf_len_unchanged { length buf.new ≡ length buf.old }
{
    buf[at..at + WORD].copy_from_slice(&w.to_le_bytes());
}

// ---- texts

// A part of s, not a copy.
pub fn text(s: &[u8], start: usize, len: usize) -> &[u8]
    requires { start + len ≤ length s.now }
    ensures { result.now ≡ take len (drop start s.now) }
{
    &s[start..start + len]
}

// b may be a byte string: under `unfolding bytes`, what a caller has of `same(t, b"print")` is
// `same_text (now t) (bytes "print")`.
pub fn same(a: &[u8], b: &[u8]) -> bool
    ensures { result ≡ same_text a.now b.now }
{
    a == b
}

pub fn before(a: &[u8], b: &[u8]) -> bool
    ensures { result ≡ comes_before a.now b.now }
{
    for i in 0..a.len().min(b.len()) {
        if a[i] != b[i] {
            return a[i] < b[i];
        }
    }
    a.len() < b.len()
}

// ---- what a text of a name may be

// "Each byte is 33..126": std calls such a one graphic.
fn all_printable(s: &[u8]) -> bool
    ensures { result ≡ all printable s.now }
{
    for i in 0..s.len() {
        if !s[i].is_ascii_graphic() {
            return false;
        }
    }
    true
}

// "Text length 1..64"; texts "ascend strictly as byte strings": an image's names and a sheet's. `last` is the text
// before.
pub fn text_stands(last: &[u8], s: &[u8]) -> bool
    ensures { result ≡ text_stands last.now s.now }
{
    1 <= s.len() && s.len() <= LONGEST_NAME && all_printable(s) && before(last, s)
}

// ---- copies

// Returns where s ends in buf. Byte by byte, since `copy_from_slice` becomes a call of memmove where the length is not
// constant, which an archive for C would need from outside.
pub fn put(buf: &mut [u8], at: usize, s: &[u8]) -> usize
    requires { at + length s.now ≤ length buf.old }
    ensures buf_after { buf.new ≡ put_at buf.old at s.now }
    ensures value { result ≡ at + length s.now }
{
    for j in 0..s.len() {
        buf[at + j] = s[j];
    }
    at + s.len()
}

// ---- numbers in decimal

const BASE: u32 = 10;

// 0 has one digit.
pub fn decimal_length(n: u32) -> usize
    ensures value { result ≡ length (decimal n) }
    ensures lower_bound { (1 ≤ result) × (result ≤ 10) }
{
    n.max(1).ilog10() as usize + 1
}

fn digit(d: u32) -> u8
    requires { d < 10 }
    ensures { result ≡ 48 + d }
{
    b'0' + d as u8
}

// Division gives the last digit first, so the ones before it are written by a call of its own. Returns where the digits
// end in buf.
pub fn put_decimal(buf: &mut [u8], at: usize, n: u32) -> usize
    requires { at + length (decimal n) ≤ length buf.old }
    ensures buf_after { buf.new ≡ put_at buf.old at (decimal n) }
    ensures value { result ≡ at + length (decimal n) }
{
    if n < BASE {
        buf[at] = digit(n);
        return at + 1;
    }
    let last = put_decimal(buf, at, n / BASE);
    buf[last] = digit(n % BASE);
    last + 1
}
