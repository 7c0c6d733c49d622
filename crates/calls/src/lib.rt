// Calls of names: what T's tc_expr makes of a call before it looks at an argument.
#![tactic(auto)]

ghost use Rattle.std.specs.Prelude.{◌<◌};
ghost use Rattle.meaning.specs.Image.{name_count, names_of};
ghost use Rattle.meaning.proofs.Faults.{Sound};
ghost use Rattle.calls.specs.Planning.{Chosen, Planned};

use codes::Code;
use image::{admits, areas, name_at, name_text, roles};
use types;

// What T's match on a builtin's name does with the arguments of its call.
#[derive(Clone, Copy)]
pub enum Rule {
    Each(usize), // every argument is checked, and the type is this plain one
    First(usize), // the first is checked, and the type is this plain one
    Input,
    Len,
    Range,
    Map,
    Filter,
}

// The rule of a builtin's text, in T's order: "A builtin's rule is chosen by its text, compared byte by byte."
#[tactic(auto, using(crate::proofs::Builtins::texts))]
pub fn builtin_of(text: &[u8]) -> Rule
    ensures { Chosen text.now result }
{
    match text {
        b"print" => Rule::Each(types::NONE_TYPE),
        b"input" => Rule::Input,
        b"int" => Rule::First(types::INT),
        b"float" => Rule::First(types::FLOAT),
        b"bool" => Rule::First(types::BOOL),
        b"str" => Rule::First(types::STRING),
        b"len" => Rule::Len,
        b"range" => Rule::Range,
        b"assert" => Rule::First(types::NONE_TYPE),
        b"map" => Rule::Map,
        b"filter" => Rule::Filter,
        _ => Rule::Each(types::UNKNOWN),
    }
}

// What becomes of a call of a name: its rule, or the refusal of its count.
pub type Plan = Result<Rule, Code>;

// "Role, then arity, then the rule of the text": the call of name x with so many arguments.
pub fn plan_of(image: &[u8], x: usize, count: u32) -> Plan
    requires sound { Sound image.now }
    requires x_bound { x < name_count image.now }
    ensures { Planned (names_of image.now) x count result }
{
    let name = name_at(image, x);
    match name.role {
        roles::EXACTLY | roles::BETWEEN | roles::ANY => {
            if !admits(name, count) {
                return Err(Code::BuiltinArity);
            }
            let layout = areas(image);
            Ok(builtin_of(name_text(image, layout.texts, x)))
        }
        roles::FUNCTION if count != name.p => Err(Code::FunctionArity),
        _ => Ok(Rule::Each(types::UNKNOWN)),
    }
}
