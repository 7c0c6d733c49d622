// The type of an expression: T's tc_expr. Children are checked from left to right; what a node gives, once its children
// are checked, is decided outside the cycle, in `nodes` and `rules`. Remaining depth falls at each call; where a rule
// wants the types of many children, these wait on the stack.
#![tactic(auto)]

ghost use Rattle.std.specs.Prelude.{◌≡◌, ◌<◌};
ghost use Rattle.meaning.specs.Types.{plain};
ghost use Rattle.meaning.specs.Rules.{each_then, first_then, input_rule, len_rule, range_rule};
ghost use Rattle.calls.specs.Planning.{rule_of, Enough};
ghost use Rattle.state.specs.Lent.{lent};
ghost use Rattle.codes.specs.Codes.{code_number};
ghost use Rattle.expr.specs.Contract.{first_code, stream_of};
ghost use Rattle.expr.specs.Clauses.{Any, Checkable, Compound, OfKind, Ruled, InRow, Called};
ghost use Rattle.expr.specs.Clauses.{Checks, ChecksForm, ChecksAll, Calls};

use calls::{Rule, plan_of};
use codes::Code;
use frames::{Frames, lookup};
use image::{Cursor, kinds};
use nodes::{decide, dict_of, list_of, literal, streamed};
use rules::{Pair, bound, callable, dict_step, list_step, prompt};
use state::{Outcome, Typed, Walk};
use types;

// A call of a name: its node, the cursor at its first argument, and how many there are.
#[derive(Clone, Copy)]
pub struct NameCall {
    pub at: usize,
    pub first: Cursor,
    pub count: usize,
}

// What the check of an expression reads and never changes: the image, the frames, and the newest one's row.
#[derive(Clone, Copy)]
pub struct Scope<'a> {
    pub image: &'a [u8],
    pub frames: &'a Frames,
    pub top: usize,
}

// The expression at the cursor.
pub fn tc_expr(
    image: &[u8],
    here: Cursor,
    frames: &Frames,
    top: usize,
    table: &mut [u16],
    w: &mut Walk,
    sp: usize,
    depth: usize,
) -> Typed
    requires { Checkable image.now here top sp depth
        (lent frames.now table.old w.old) }
    ensures { Checks image.now here top sp depth result
        (lent frames.now table.old w.old)
        (lent frames.now table.new w.new) }
{
    expression(&Scope { image, frames, top }, here, table, w, sp, depth)
}

// The same in its scope. Most nodes are Literals and Variables: these are decided where they are met, without a call.
#[inline]
#[cycle(expression)]
fn expression(
    scope: &Scope,
    here: Cursor,
    table: &mut [u16],
    w: &mut Walk,
    sp: usize,
    depth: usize,
) -> Typed
    requires { Checkable scope.now.image.now here scope.now.top sp depth
        (lent scope.now.frames.now table.old w.old) }
    ensures { Checks scope.now.image.now here scope.now.top sp depth result
        (lent scope.now.frames.now table.old w.old)
        (lent scope.now.frames.now table.new w.new) }
{
    let read = here.next(scope.image);
    let node = read.node;
    match node.kind {
        kinds::LITERAL => Ok(literal(node.arg)),
        kinds::VARIABLE => Ok(lookup(scope.frames, scope.top, node.arg as usize).ty),
        kind => compound(scope, here, table, w, sp, depth, kind),
    }
}

// Any other expression, of kind `kind`. As a function of its own it keeps its frame from the Literals and Variables.
#[inline(never)]
#[cycle(expression)]
fn compound(
    scope: &Scope,
    here: Cursor,
    table: &mut [u16],
    w: &mut Walk,
    sp: usize,
    depth: usize,
    kind: u32,
) -> Typed
    requires { Compound kind scope.now.image.now here scope.now.top sp depth
        (lent scope.now.frames.now table.old w.old) }
    ensures { Checks scope.now.image.now here scope.now.top sp depth result
        (lent scope.now.frames.now table.old w.old)
        (lent scope.now.frames.now table.new w.new) }
{
    match kind {
        kinds::BINARY => binary(scope, here, table, w, sp, depth - 1),
        kinds::CALL => call(scope, here, table, w, sp, depth - 1),
        kinds::LIST => list(scope, here, table, w, sp, depth - 1),
        kinds::DICT => dict(scope, here, table, w, sp, depth - 1),
        kinds::UNARY | kinds::ATTRIBUTE | kinds::TUPLE..=kinds::INDEX => {
            operands(scope, here, table, w, sp, depth - 1)
        }
        _ => Ok(types::FUNCTION),
    }
}

// n expressions from the cursor on, their types on the stack from sp on.
#[cycle(expression)]
fn values(
    scope: &Scope,
    from: Cursor,
    table: &mut [u16],
    w: &mut Walk,
    sp: usize,
    depth: usize,
    n: usize,
) -> Outcome
    requires { InRow scope.now.image.now from scope.now.top sp n depth
        (lent scope.now.frames.now table.old w.old) }
    ensures { ChecksAll scope.now.image.now from scope.now.top sp n depth result
        (lent scope.now.frames.now table.old w.old)
        (lent scope.now.frames.now table.new w.new) }
{
    let mut next = from;
    for i in 0..n {
        let ty = expression(scope, next, table, w, sp + i, depth)?;
        w.stack[sp + i] = ty as u16;
        next = next.over(scope.image).cursor;
    }
    Ok(())
}

// A node whose children are all checked before its rule looks at them.
#[cycle(expression)]
fn operands(
    scope: &Scope,
    here: Cursor,
    table: &mut [u16],
    w: &mut Walk,
    sp: usize,
    depth: usize,
) -> Typed
    requires { Ruled scope.now.image.now here scope.now.top sp depth
        (lent scope.now.frames.now table.old w.old) }
    ensures { ChecksForm scope.now.image.now here scope.now.top sp depth result
        (lent scope.now.frames.now table.old w.old)
        (lent scope.now.frames.now table.new w.new) }
{
    let read = here.next(scope.image);
    let first = read.cursor;
    let n = read.node.children as usize;
    values(scope, first, table, w, sp, depth, n)?;
    decide(scope.image, here, table, &mut w.notes, &w.stack, sp)
}

// A Binary: its operands, and then its rule.
#[cycle(expression)]
fn binary(
    scope: &Scope,
    here: Cursor,
    table: &mut [u16],
    w: &mut Walk,
    sp: usize,
    depth: usize,
) -> Typed
    requires { OfKind 23 scope.now.image.now here scope.now.top sp depth
        (lent scope.now.frames.now table.old w.old) }
    ensures { ChecksForm scope.now.image.now here scope.now.top sp depth result
        (lent scope.now.frames.now table.old w.old)
        (lent scope.now.frames.now table.new w.new) }
{
    let read = here.next(scope.image);
    let node = read.node;
    let left = read.cursor;
    let a = expression(scope, left, table, w, sp, depth)?;
    let right = left.over(scope.image).cursor;
    let b = expression(scope, right, table, w, sp, depth)?;
    let decision = rules::binary(table, node.arg, a, b);
    w.notes.settle(decision, here.at)
}

// A List: "List stops at the first mismatch".
#[cycle(expression)]
fn list(
    scope: &Scope,
    here: Cursor,
    table: &mut [u16],
    w: &mut Walk,
    sp: usize,
    depth: usize,
) -> Typed
    requires { OfKind 26 scope.now.image.now here scope.now.top sp depth
        (lent scope.now.frames.now table.old w.old) }
    ensures { ChecksForm scope.now.image.now here scope.now.top sp depth result
        (lent scope.now.frames.now table.old w.old)
        (lent scope.now.frames.now table.new w.new) }
{
    let read = here.next(scope.image);
    let mut next = read.cursor;
    let mut element = types::UNKNOWN;
    for _ in 0..read.node.children {
        let ty = expression(scope, next, table, w, sp, depth)?;
        let Some(joined) = list_step(element, ty) else {
            return Ok(list_of(table, &mut w.notes.counts, types::UNKNOWN));
        };
        element = joined;
        next = next.over(scope.image).cursor;
    }
    Ok(list_of(table, &mut w.notes.counts, element))
}

// A Dict: "Dict stops only when key and value are both Unknown after a pair".
#[cycle(expression)]
fn dict(
    scope: &Scope,
    here: Cursor,
    table: &mut [u16],
    w: &mut Walk,
    sp: usize,
    depth: usize,
) -> Typed
    requires { OfKind 27 scope.now.image.now here scope.now.top sp depth
        (lent scope.now.frames.now table.old w.old) }
    ensures { ChecksForm scope.now.image.now here scope.now.top sp depth result
        (lent scope.now.frames.now table.old w.old)
        (lent scope.now.frames.now table.new w.new) }
{
    let read = here.next(scope.image);
    let mut next = read.cursor;
    let mut so_far = Pair {
        key: types::UNKNOWN,
        value: types::UNKNOWN,
    };
    for _ in 0..read.node.children / 2 {
        let key = expression(scope, next, table, w, sp, depth)?;
        let second = next.over(scope.image).cursor;
        let value = expression(scope, second, table, w, sp, depth)?;
        let Some(joined) = dict_step(so_far, Pair { key, value }) else {
            return Ok(dict_of(table, &mut w.notes.counts, types::UNKNOWN, types::UNKNOWN));
        };
        so_far = joined;
        next = second.over(scope.image).cursor;
    }
    Ok(dict_of(table, &mut w.notes.counts, so_far.key, so_far.value))
}

// ---- calls

// A Call: a Variable that is called goes by its name's role and is not looked up; any other callee is checked first.
#[cycle(expression)]
fn call(
    scope: &Scope,
    here: Cursor,
    table: &mut [u16],
    w: &mut Walk,
    sp: usize,
    depth: usize,
) -> Typed
    requires { OfKind 24 scope.now.image.now here scope.now.top sp depth
        (lent scope.now.frames.now table.old w.old) }
    ensures { ChecksForm scope.now.image.now here scope.now.top sp depth result
        (lent scope.now.frames.now table.old w.old)
        (lent scope.now.frames.now table.new w.new) }
{
    let read = here.next(scope.image);
    let node = read.node;
    let callee = read.cursor;
    let passed = callee.over(scope.image);
    let function = passed.node;
    if function.kind != kinds::VARIABLE {
        return operands(scope, here, table, w, sp, depth);
    }
    let name = function.arg as usize;
    let count = node.children - 1;
    let call = NameCall {
        at: here.at,
        first: passed.cursor,
        count: count as usize,
    };
    match plan_of(scope.image, name, count) {
        Ok(rule) => arguments(scope, call, table, w, sp, depth, rule),
        Err(code) => Err(w.notes.refuse(code, here.at, name, call.count)),
    }
}

// The arguments of a call, by its rule: what a rule does not look at is not checked.
#[cycle(expression)]
fn arguments(
    scope: &Scope,
    call: NameCall,
    table: &mut [u16],
    w: &mut Walk,
    sp: usize,
    depth: usize,
    rule: Rule,
) -> Typed
    requires { Called scope.now.image.now call scope.now.top sp depth (Enough rule call.count)
        (lent scope.now.frames.now table.old w.old) }
    ensures { Calls (rule_of rule call.at) scope.now.image.now call scope.now.top sp depth result
        (lent scope.now.frames.now table.old w.old)
        (lent scope.now.frames.now table.new w.new) }
{
    match rule {
        Rule::Each(ty) => each_then(scope, call, table, w, sp, depth, ty),
        Rule::First(ty) => first_then(scope, call, table, w, sp, depth, ty),
        Rule::Input => input(scope, call, table, w, sp, depth),
        Rule::Len => len(scope, call, table, w, sp, depth),
        Rule::Range => range(scope, call, table, w, sp, depth),
        Rule::Map => stream(scope, call, table, w, sp, depth, false),
        Rule::Filter => stream(scope, call, table, w, sp, depth, true),
    }
}

// Every argument is checked, and the type is `ty`.
#[cycle(expression)]
fn each_then(
    scope: &Scope,
    call: NameCall,
    table: &mut [u16],
    w: &mut Walk,
    sp: usize,
    depth: usize,
    ty: usize,
) -> Typed
    requires { Called scope.now.image.now call scope.now.top sp depth (ty < 8)
        (lent scope.now.frames.now table.old w.old) }
    ensures { Calls (each_then (plain ty)) scope.now.image.now call scope.now.top sp depth result
        (lent scope.now.frames.now table.old w.old)
        (lent scope.now.frames.now table.new w.new) }
{
    values(scope, call.first, table, w, sp, depth, call.count)?;
    Ok(ty)
}

// The first argument is checked, and the type is `ty`.
#[cycle(expression)]
fn first_then(
    scope: &Scope,
    call: NameCall,
    table: &mut [u16],
    w: &mut Walk,
    sp: usize,
    depth: usize,
    ty: usize,
) -> Typed
    requires { Called scope.now.image.now call scope.now.top sp depth ((ty < 8) × (0 < call.count))
        (lent scope.now.frames.now table.old w.old) }
    ensures { Calls (first_then (plain ty)) scope.now.image.now call scope.now.top sp depth result
        (lent scope.now.frames.now table.old w.old)
        (lent scope.now.frames.now table.new w.new) }
{
    expression(scope, call.first, table, w, sp, depth)?;
    Ok(ty)
}

// `input`, whose prompt is a String if there is one.
#[cycle(expression)]
fn input(
    scope: &Scope,
    call: NameCall,
    table: &mut [u16],
    w: &mut Walk,
    sp: usize,
    depth: usize,
) -> Typed
    requires { Called scope.now.image.now call scope.now.top sp depth Any
        (lent scope.now.frames.now table.old w.old) }
    ensures { Calls (input_rule call.at) scope.now.image.now call scope.now.top sp depth result
        (lent scope.now.frames.now table.old w.old)
        (lent scope.now.frames.now table.new w.new) }
{
    if call.count != 1 {
        return Ok(types::STRING);
    }
    let ty = expression(scope, call.first, table, w, sp, depth)?;
    w.notes.settle(prompt(ty), call.at)
}

// `len`.
#[cycle(expression)]
fn len(
    scope: &Scope,
    call: NameCall,
    table: &mut [u16],
    w: &mut Walk,
    sp: usize,
    depth: usize,
) -> Typed
    requires { Called scope.now.image.now call scope.now.top sp depth (0 < call.count)
        (lent scope.now.frames.now table.old w.old) }
    ensures { Calls (len_rule call.at) scope.now.image.now call scope.now.top sp depth result
        (lent scope.now.frames.now table.old w.old)
        (lent scope.now.frames.now table.new w.new) }
{
    let ty = expression(scope, call.first, table, w, sp, depth)?;
    w.notes.settle(rules::len(table, ty), call.at)
}

// `range`: a wrong argument ends it before the next is looked at.
#[cycle(expression)]
fn range(
    scope: &Scope,
    call: NameCall,
    table: &mut [u16],
    w: &mut Walk,
    sp: usize,
    depth: usize,
) -> Typed
    requires { Called scope.now.image.now call scope.now.top sp depth Any
        (lent scope.now.frames.now table.old w.old) }
    ensures { Calls (range_rule call.at) scope.now.image.now call scope.now.top sp depth result
        (lent scope.now.frames.now table.old w.old)
        (lent scope.now.frames.now table.new w.new) }
{
    let mut next = call.first;
    for _ in 0..call.count {
        let ty = expression(scope, next, table, w, sp, depth)?;
        w.notes.settle(bound(ty), call.at)?;
        next = next.over(scope.image).cursor;
    }
    Ok(types::RANGE)
}

// The code that refuses the first argument: 42 for `map`, 44 for `filter`.
#[tactic(auto, unfolding(crate::specs::Contract::first_code))]
fn first_code(filters: bool) -> Code
    ensures { code_number result ≡ first_code filters }
{
    if filters {
        Code::FilterFirst
    } else {
        Code::MapFirst
    }
}

// `map` and `filter`: the first argument is judged before the second is looked at.
#[cycle(expression)]
fn stream(
    scope: &Scope,
    call: NameCall,
    table: &mut [u16],
    w: &mut Walk,
    sp: usize,
    depth: usize,
    filters: bool,
) -> Typed
    requires { Called scope.now.image.now call scope.now.top sp depth (1 < call.count)
        (lent scope.now.frames.now table.old w.old) }
    ensures { Calls (stream_of filters) scope.now.image.now call scope.now.top sp depth result
        (lent scope.now.frames.now table.old w.old)
        (lent scope.now.frames.now table.new w.new) }
{
    let first = call.first;
    let function = expression(scope, first, table, w, sp, depth)?;
    let judged = callable(function, first_code(filters));
    w.notes.settle(judged, first.at)?;
    let second = first.over(scope.image).cursor;
    let iterable = expression(scope, second, table, w, sp, depth)?;
    streamed(table, &mut w.notes, filters, iterable, second.at)
}
