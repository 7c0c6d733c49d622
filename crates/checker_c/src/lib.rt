// The exports of `checker`, for C and Rust: a static library of its own, since a crate is a library or a static one, not
// both. Each calls the library's function of the same name, and states its clauses again.
#![tactic(auto)]

ghost use Rattle.std.specs.Prelude.{◌≡◌, length};
ghost use Rattle.meaning.specs.Answer.{answer, read_answer};
ghost use Rattle.checker.specs.Answers.{rewritten, reply_means, Replies, Relaid};

use checker::Reply;

// `check` for other languages.
#[unsafe(no_mangle)]
pub extern "C" fn cablebirch_check(
    setting: u32,
    image: &[u8],
    sheet: &mut [u8],
    message: &mut [u8],
) -> Reply
    ensures { Replies
        (answer setting image.now (length sheet.old) (length message.old))
        (reply_means result) sheet.old sheet.new message.old message.new }
{
    checker::cablebirch_check(setting, image, sheet, message)
}

// `read_sheet` for other languages: 0 or 12.
#[unsafe(no_mangle)]
pub extern "C" fn cablebirch_read_sheet(sheet: &[u8]) -> u32
    ensures { result ≡ (read_answer sheet.now).code }
{
    checker::cablebirch_read_sheet(sheet)
}

// `write_sheet` for other languages: 0, 10 or 12.
#[unsafe(no_mangle)]
pub extern "C" fn cablebirch_write_sheet(sheet: &[u8], out: &mut [u8]) -> Reply
    ensures { Relaid (rewritten sheet.now (length out.old))
        (reply_means result) out.old out.new }
{
    checker::cablebirch_write_sheet(sheet, out)
}
