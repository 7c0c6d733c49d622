// What one node of an expression gives, once its children are checked: T's tc_expr without its recursion. `rules`
// decides from the children's types; here a type is formed, and what is decided becomes the node's answer.
#![tactic(auto)]

ghost use Rattle.std.specs.Prelude.{◌≡◌};
ghost use Rattle.meaning.specs.Types.{list, dict};
ghost use Rattle.meaning.specs.Image.{nodes_of, node_of};
ghost use Rattle.types.specs.Table.{denote};
ghost use Rattle.types.specs.Steps.{Listed};
ghost use Rattle.rules.specs.Outcome.{decision_code};
ghost use Rattle.rules.specs.Leaves.{Asks, index_place, second_rule};
ghost use Rattle.state.specs.Notes.{tab_of, tab_in};
ghost use Rattle.nodes.specs.Operands.{literal_number, Decidable, Streamable};
ghost use Rattle.nodes.specs.Clauses.{Forms, FormsTuple, Gives, NodeGives};

use codes::Code;
use image::{Cursor, kinds, literals};
use rules::{Decision, index, stream, unary};
use state::{Notes, Stack, Typed};
use types;
use types::{Counts, Kind, form};

// ---- Literals

// The number of a Literal's type: "arg 0..4 Bool, Int, String, Float, None".
#[tactic(auto, using(crate::proofs::Laws::literal_other), unfolding(crate::specs::Operands::literal_number))]
pub fn literal(arg: u32) -> usize
    ensures { result ≡ literal_number arg }
{
    match arg {
        literals::BOOL => types::BOOL,
        literals::INT => types::INT,
        literals::STRING => types::STRING,
        literals::FLOAT => types::FLOAT,
        literals::NONE => types::NONE_TYPE,
        _ => types::UNKNOWN,
    }
}

// ---- types that are formed, in a table of so many types and elements

pub fn list_of(table: &mut [u16], counts: &mut Counts, element: usize) -> usize
    requires { Asks (tab_of table.old counts.old) element }
    ensures { Forms table.old table.new counts.old counts.new result
        (λ t. list (denote t element)) }
{
    let formed = form(table, *counts, Kind::List, element, types::NO_PART);
    *counts = formed.counts;
    formed.number
}

pub fn dict_of(table: &mut [u16], counts: &mut Counts, key: usize, value: usize) -> usize
    requires asks { Asks (tab_of table.old counts.old) key }
    requires asks_2 { Asks (tab_of table.old counts.old) value }
    ensures { Forms table.old table.new counts.old counts.new result
        (λ t. dict (denote t key) (denote t value)) }
{
    let formed = form(table, *counts, Kind::Dict, key, value);
    *counts = formed.counts;
    formed.number
}

// The Tuple of the n types on the stack from sp on.
fn tuple_of(table: &mut [u16], counts: &mut Counts, stack: &Stack, sp: usize, n: usize) -> usize
    requires { Listed (tab_of table.old counts.old) stack.now sp n }
    ensures { FormsTuple table.old table.new counts.old counts.new result
        stack.now sp n }
{
    let formed = types::tuple_of(table, *counts, stack, sp, n);
    *counts = formed.counts;
    formed.number
}

// ---- what is decided, at its node

// "50 the object; 46 to 49 the index".
fn index_place(decision: Decision, object: usize, index: usize) -> usize
    ensures { result ≡ index_place (decision_code decision) object index }
{
    match decision {
        Ok(_) => index,
        Err(why) => match why.code {
            Code::NotSubscriptable => object,
            _ => index,
        },
    }
}

// What the node at the cursor gives, if it is no Binary, its children's types on the stack from sp on.
pub fn decide(
    image: &[u8],
    here: Cursor,
    table: &mut [u16],
    notes: &mut Notes,
    stack: &Stack,
    sp: usize,
) -> Typed
    requires decidable { Decidable image.now here (tab_in table.old notes.old) stack.now sp
        (node_of (nodes_of image.now) here.at) }
    requires fact { (node_of (nodes_of image.now) here.at).kind ≡ 23 → ⊥ }
    ensures { NodeGives image.now here stack.now sp
        table.old table.new notes.old notes.new result }
{
    let read = here.next(image);
    let node = read.node;
    let first = read.cursor;
    match node.kind {
        kinds::UNARY => notes.settle(unary(table, node.arg, stack[sp] as usize), here.at),
        kinds::TUPLE => {
            let n = node.children as usize;
            Ok(tuple_of(table, &mut notes.counts, stack, sp, n))
        }
        kinds::INDEX => {
            let passed = first.over(image);
            let second = passed.cursor;
            let decision = index(table, stack[sp] as usize, stack[sp + 1] as usize);
            notes.settle(decision, index_place(decision, first.at, second.at))
        }
        _ => Ok(types::UNKNOWN),
    }
}

// The second argument of `map` or `filter`, itself at node `at`: the type of the whole call.
pub fn streamed(table: &mut [u16], notes: &mut Notes, filters: bool, ty: usize, at: usize) -> Typed
    requires { Streamable (tab_in table.old notes.old) ty at }
    ensures { Gives table.old table.new notes.old notes.new result at
        (λ t. second_rule filters at (denote t ty)) }
{
    let made = stream(table, notes.counts, filters, ty);
    notes.counts = made.counts;
    notes.settle(made.decision, at)
}
