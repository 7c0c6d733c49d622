// The exports of `load`, for C and Rust: a static library of its own, since a crate is a library or a static one, not
// both. Each calls the library's function of the same name, and states its clauses again.
#![tactic(auto)]

ghost use Rattle.std.specs.Prelude.{◌≡◌, length};
ghost use Rattle.meaning.specs.Answer.{answer};
ghost use Rattle.meaning.specs.Convert.{convert_answer};
ghost use Rattle.meaning.specs.Known.{steadiness};
ghost use Rattle.meaning.specs.Show.{show_answer, changes_answer};
ghost use Rattle.show.specs.Words.{Tells};
ghost use Rattle.load.specs.Rule.{Decides, verdict_means};
ghost use Rattle.convert.specs.Outcome.{Hands};
ghost use Rattle.load.specs.Steadiness.{steady_numbers, steady_means};
ghost use Rattle.load.specs.Conversion.{converted_means};

use load::{Converted, Steady, Verdict, Words};

// `load` for other languages.
#[unsafe(no_mangle)]
pub extern "C" fn cablebirch_load(
    setting: u32,
    image: &[u8],
    approved: &[u8],
    sheet: &mut [u8],
    message: &mut [u8],
) -> Verdict
    ensures { Decides
        (answer setting image.now (length sheet.old) (length message.old))
        approved.now result.loading (verdict_means result)
        sheet.old sheet.new message.old message.new }
{
    load::cablebirch_load(setting, image, approved, sheet, message)
}

// `show::show` for other languages.
#[unsafe(no_mangle)]
pub extern "C" fn cablebirch_show(sheet: &[u8], out: &mut [u8]) -> Words
    ensures { Tells (show_answer sheet.now (length out.old))
        result.code result.length out.old out.new }
{
    load::cablebirch_show(sheet, out)
}

// `show::changes` for other languages.
#[unsafe(no_mangle)]
pub extern "C" fn cablebirch_changes(old: &[u8], new: &[u8], out: &mut [u8]) -> Words
    ensures { Tells (changes_answer old.now new.now (length out.old))
        result.code result.length out.old out.new }
{
    load::cablebirch_changes(old, new, out)
}

// `steady::steady` for other languages.
#[unsafe(no_mangle)]
pub extern "C" fn cablebirch_steady(image: &[u8]) -> Steady
    ensures { steady_means result ≡ steady_numbers (steadiness image.now) }
{
    load::cablebirch_steady(image)
}

// `convert::convert` for other languages.
#[unsafe(no_mangle)]
pub extern "C" fn cablebirch_convert(image: &[u8], out: &mut [u8]) -> Converted
    ensures { Hands (convert_answer image.now (length out.old))
        (converted_means result) out.old out.new }
{
    load::cablebirch_convert(image, out)
}
