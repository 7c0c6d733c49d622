// The program image: whether a slice of bytes is one, and its parts.
#![tactic(auto, unfolding(crate::proofs::Open::tests_open), using(std::proofs::lemmas::Bool::Decides::nat_tests))]

ghost use Rattle.std.specs.Prelude.{◌≡◌, [], ◌∷◌, suc, ◌+◌, ◌-◌, ◌*◌, ◌%◌, ◌<◌, ◌≤◌, eqb, leb, ltb, length, take, drop};
ghost use Rattle.std.proofs.Math.Option.{none};
ghost use Rattle.meaning.specs.Image.{name_count, node_count, nodes_from, texts_from, node, nodes_of, node_of, name_record};
ghost use Rattle.meaning.specs.Image.{name_records, texts_of, names_of, name_of, role_stands};
ghost use Rattle.meaning.specs.Image.{role_of, allows, safe, broken_name, unsafe_name, is_statement};
ghost use Rattle.meaning.specs.Image.{is_expression, node_stands, broken_node, belongs, lands};
ghost use Rattle.meaning.specs.Image.{nests, badly_nested, too_deep_node, head_stands, counts_stand, offsets_stand};
ghost use Rattle.meaning.specs.Image.{image_fault, first_tree_set};
ghost use Rattle.meaning.specs.Base.{◌and◌, ◌or◌, test◌then◌else◌, is_one_of, words};
ghost use Rattle.meaning.proofs.Faults.{Headed};
ghost use Rattle.image.specs.Kinds.{record_stands, root_stands};
ghost use Rattle.words.specs.Words.{put_at};
ghost use Rattle.image.specs.Outcome.{fault_in, fault_of, place_of};
ghost use Rattle.image.specs.Parts.{Laid, node_means, name_means, record_of, name_stands};
ghost use Rattle.image.specs.Parts.{one_argument, two_arguments, On, Moved};

mod header;
pub mod kinds;
pub mod literals;
pub mod roles;

use limits::{DEEPEST, MOST_NAMES, MOST_NODES, MOST_TEXT};
use words::{get_word, put_word, text, text_stands};

// "Name record, 5 words: text start, text length 1..64, role, p, q": the bytes at which all but the first start.
const LEN: usize = 4;

const ROLE: usize = 8;

const P: usize = 12;

const Q: usize = 16;

const NAME_RECORD: usize = 20;

// "Node record, 6 words: kind, arg, child count, end, span start, span end".
const ARG: usize = 4;

const CHILDREN: usize = 8;

const STOP: usize = 12;

const BEGINS: usize = 16;

const ENDS: usize = 20;

const NODE_RECORD: usize = 24;

// An arg is below one of these, or below the number of names: "Unused arg .. [is] 0"; "20 Literal (arg 0..4 ..);
// 22 Unary (0..2); 23 Binary (0..13)".
const UNUSED: usize = 1;

const LITERALS: usize = 5;

const UNARY_OPERATORS: usize = 3;

const BINARY_OPERATORS: usize = 14;

// The refusals 1 to 8, those of a name or a node with its number.
#[derive(Clone, Copy, PartialEq, Eq)]
pub enum Fault {
    BadHead,
    BadCount,
    BadOffset,
    BadName(usize),
    UnsafeName(usize),
    BadNode(usize),
    BadNesting(usize),
    TooDeep(usize),
}

// A refusal in document 01's numbers.
#[derive(Clone, Copy, PartialEq, Eq)]
pub struct Numbers {
    pub code: u32,
    pub place: usize,
}

// By the codes of document 01.
impl From<Fault> for Numbers {
    ghost from_gives = { λ f n. (n.code ≡ (fault_in f).code) × (n.place ≡ (fault_in f).place) };

    fn from(f: Fault) -> Numbers {
        let (code, place) = match f {
            Fault::BadHead => (1, 0),
            Fault::BadCount => (2, 0),
            Fault::BadOffset => (3, 0),
            Fault::BadName(i) => (4, i),
            Fault::UnsafeName(i) => (5, i),
            Fault::BadNode(i) => (6, i),
            Fault::BadNesting(i) => (7, i),
            Fault::TooDeep(i) => (8, i),
        };
        Numbers { code, place }
    }
}

// The header's counts, and where the areas start.
#[derive(Clone, Copy)]
pub struct Layout {
    pub names: usize,
    pub nodes: usize,
    pub count: usize,
    pub texts: usize,
    pub size: usize,
    pub total: usize,
}

// A node record: `stop` is its end, `begins` and `ends` are its span.
#[derive(Clone, Copy)]
pub struct Node {
    pub kind: u32,
    pub arg: u32,
    pub children: u32,
    pub stop: u32,
    pub begins: u32,
    pub ends: u32,
}

// A name record: its text starts at `start` of the text area.
#[derive(Clone, Copy)]
pub struct NameAt {
    pub start: u32,
    pub len: u32,
    pub role: u32,
    pub p: u32,
    pub q: u32,
}

// A place in the node area: the node that it stands at, and where the area starts.
#[derive(Clone, Copy)]
pub struct Cursor {
    pub at: usize,
    pub nodes: usize,
}

// The node that a cursor stood at, and the cursor moved.
#[derive(Clone, Copy)]
pub struct Read {
    pub cursor: Cursor,
    pub node: Node,
}

// ---- the header

fn head_stands(image: &[u8]) -> bool
    ensures { result ≡ head_stands image.now }
{
    header::LENGTH <= image.len() && get_word(image, header::VERSION) == header::OURS
}

// The largest sum, the total, stays far below 2^64 whatever the words are.
pub fn areas(image: &[u8]) -> Layout
    requires { 32 ≤ length image.now }
    ensures { Laid image.now result }
{
    let names = get_word(image, header::NAME_COUNT) as usize;
    let count = get_word(image, header::NODE_COUNT) as usize;
    let size = get_word(image, header::TEXT_COUNT) as usize;
    let nodes = header::LENGTH + NAME_RECORD * names;
    let texts = nodes + NODE_RECORD * count;
    let total = texts + size;
    Layout {
        names,
        nodes,
        count,
        texts,
        size,
        total,
    }
}

fn counts_stand(image: &[u8], l: Layout) -> bool
    requires { Laid image.now l }
    ensures { result ≡ counts_stand image.now }
{
    l.names <= MOST_NAMES && 1 <= l.count && l.count <= MOST_NODES && l.size <= MOST_TEXT
}

fn offsets_stand(image: &[u8], l: Layout) -> bool
    requires in_bounds { 32 ≤ length image.now }
    requires laid { Laid image.now l }
    ensures { result ≡ offsets_stand image.now }
{
    get_word(image, header::NAMES) as usize == header::LENGTH
        && get_word(image, header::NODES) as usize == l.nodes
        && get_word(image, header::TEXTS) as usize == l.texts
        && get_word(image, header::TOTAL) as usize == l.total
        && image.len() == l.total
}

// ---- records

fn node_words(image: &[u8], at: usize) -> Node
    requires { at + 24 ≤ length image.now }
    ensures { node_means result ≡ node (drop at image.now) }
{
    Node {
        kind: get_word(image, at),
        arg: get_word(image, at + ARG),
        children: get_word(image, at + CHILDREN),
        stop: get_word(image, at + STOP),
        begins: get_word(image, at + BEGINS),
        ends: get_word(image, at + ENDS),
    }
}

fn name_words(image: &[u8], at: usize) -> NameAt
    requires { at + 20 ≤ length image.now }
    ensures { name_means result ≡ name_record (drop at image.now) }
{
    NameAt {
        start: get_word(image, at),
        len: get_word(image, at + LEN),
        role: get_word(image, at + ROLE),
        p: get_word(image, at + P),
        q: get_word(image, at + Q),
    }
}

// `nodes` is where the node area starts: a walk reads it once.
pub fn node_at(image: &[u8], nodes: usize, i: usize) -> Node
    requires headed { Headed image.now }
    requires nodes_value { (nodes ≡ nodes_from image.now) × (i < node_count image.now) }
    ensures { node_means result ≡ node_of (nodes_of image.now) i }
{
    node_words(image, nodes + NODE_RECORD * i)
}

// Gives node i another kind, in the image that stands at the front of a buffer: no other byte changes.
pub fn put_kind(buf: &mut [u8], nodes: usize, i: usize, kind: u32)
    requires { nodes + 24 * i + 24 ≤ length buf.old }
    ensures buf_after { buf.new ≡ put_at buf.old (nodes + 24 * i) (words (kind ∷ [])) }
    ensures buf_len_unchanged { length buf.new ≡ length buf.old }
{
    put_word(buf, nodes + NODE_RECORD * i, kind);
}

pub fn name_at(image: &[u8], k: usize) -> NameAt
    requires headed { Headed image.now }
    requires k_bound { k < name_count image.now }
    ensures { name_means result ≡ record_of (name_records image.now) k }
{
    name_words(image, header::LENGTH + NAME_RECORD * k)
}

// A name's text is that part of the image, not a copy. `texts` is where the text area starts.
pub fn name_text(image: &[u8], texts: usize, k: usize) -> &[u8]
    requires headed { Headed image.now }
    requires image_value { broken_name image.now ≡ none }
    requires texts_value { (texts ≡ texts_from image.now) × (k < name_count image.now) }
    ensures { result.now ≡ (name_of (names_of image.now) k).spelling }
{
    let r = name_at(image, k);
    text(image, texts + r.start as usize, r.len as usize)
}

// ---- 4: names and their texts

fn role_stands(r: NameAt) -> bool
    ensures { result ≡ role_stands (name_means r) }
{
    match r.role {
        roles::PLAIN | roles::ANY => r.p == 0 && r.q == 0,
        roles::EXACTLY | roles::FUNCTION => r.q == 0,
        roles::BETWEEN => true,
        _ => false,
    }
}

// The texts lie end to end: the one before is texts[last..from], and before the first it is empty.
fn name_stands(texts: &[u8], last: usize, from: usize, r: NameAt) -> bool
    requires { (last ≤ from) × (from ≤ length texts.now) }
    ensures { result ≡ name_stands texts.now from
        (take (from - last) (drop last texts.now)) (name_means r) }
{
    let len = r.len as usize;
    r.start as usize == from
        && len <= texts.len() - from
        && text_stands(&texts[last..from], &texts[from..from + len])
        && role_stands(r)
}

fn broken_name(image: &[u8], l: Layout) -> Option<usize>
    requires headed { Headed image.now }
    requires laid { Laid image.now l }
    ensures { place_of result ≡ broken_name image.now }
{
    let texts = text(image, l.texts, l.size);
    let mut last = 0;
    let mut from = 0;
    for i in 0..l.names {
        let r = name_at(image, i);
        if !name_stands(texts, last, from, r) {
            return Some(i);
        }
        last = from;
        from += r.len as usize;
    }
    if from != texts.len() {
        return Some(l.names);
    }
    None
}

// ---- 5: builtins whose rule looks at arguments that their role does not ask for

#[tactic(auto, using(crate::proofs::Texts::one))]
fn needs_one(t: &[u8]) -> bool
    ensures { result ≡ is_one_of t.now one_argument }
{
    matches!(t, b"int" | b"float" | b"bool" | b"str" | b"len" | b"assert")
}

#[tactic(auto, using(crate::proofs::Texts::two))]
fn needs_two(t: &[u8]) -> bool
    ensures { result ≡ is_one_of t.now two_arguments }
{
    matches!(t, b"map" | b"filter")
}

// Whether a builtin of r's role takes k arguments; only the roles 1 to 3 are builtins.
pub fn admits(r: NameAt, k: u32) -> bool
    ensures { result ≡ allows (role_of (name_means r)) k }
{
    match r.role {
        roles::EXACTLY => k == r.p,
        roles::BETWEEN => r.p <= k && k <= r.q,
        roles::ANY => true,
        _ => false,
    }
}

fn safe_name(t: &[u8], r: NameAt) -> bool
    ensures { result ≡ safe (record { spelling = t.now; role = role_of (name_means r) }) }
{
    !(needs_one(t) && admits(r, 0)) && !(needs_two(t) && (admits(r, 0) || admits(r, 1)))
}

fn is_builtin(role: u32) -> bool
    ensures { result ≡ (leb 1 role and leb role 3) }
{
    matches!(role, roles::EXACTLY..=roles::ANY)
}

// Most names are no builtins: their texts are not looked at.
fn safe_at(image: &[u8], texts: usize, k: usize) -> bool
    requires headed { Headed image.now }
    requires image_value { broken_name image.now ≡ none }
    requires texts_value { (texts ≡ texts_from image.now) × (k < name_count image.now) }
    ensures { result ≡ safe (name_of (names_of image.now) k) }
{
    let r = name_at(image, k);
    !is_builtin(r.role) || safe_name(name_text(image, texts, k), r)
}

fn unsafe_name(image: &[u8], l: Layout) -> Option<usize>
    requires headed { Headed image.now }
    requires laid { Laid image.now l }
    requires image_value { broken_name image.now ≡ none }
    ensures { place_of result ≡ unsafe_name image.now }
{
    for k in 0..l.names {
        if !safe_at(image, l.texts, k) {
            return Some(k);
        }
    }
    None
}

// ---- 6: what one node record shows

// "The spans of Block and Param are 0."
fn spanless(d: Node) -> bool
    ensures { result ≡ (eqb d.begins 0 and eqb d.ends 0) }
{
    d.begins == 0 && d.ends == 0
}

// All of 6 but the end: what document 01 allows a node of each kind, in its order. A number of no kind is allowed
// nothing.
fn record_stands(names: usize, d: Node) -> bool
    ensures { result ≡ record_stands names (node_means d) }
{
    let arg = d.arg as usize;
    let children = d.children;
    match d.kind {
        kinds::BREAK..=kinds::CLASS => arg < UNUSED && children == 0,
        kinds::ASSIGN => arg < UNUSED && children == 2,
        kinds::EXPR..=kinds::RETURN => arg < UNUSED && children == 1,
        kinds::IF => arg < UNUSED && 2 <= children,
        kinds::WHILE => arg < UNUSED && children == 2,
        kinds::FOR => arg < names && children == 2,
        kinds::DEF => arg < names && 1 <= children,
        kinds::BLOCK => arg < UNUSED && spanless(d),
        kinds::PARAM => arg < names && children == 0 && spanless(d),
        kinds::LITERAL => arg < LITERALS && children == 0,
        kinds::VARIABLE => arg < names && children == 0,
        kinds::UNARY => arg < UNARY_OPERATORS && children == 1,
        kinds::BINARY => arg < BINARY_OPERATORS && children == 2,
        kinds::CALL => arg < UNUSED && 1 <= children,
        kinds::ATTRIBUTE => arg < UNUSED && children == 1,
        kinds::LIST => arg < UNUSED,
        kinds::DICT => arg < UNUSED && children % 2 == 0,
        kinds::TUPLE..=kinds::TREE_SET => arg < UNUSED,
        kinds::INDEX => arg < UNUSED && children == 2,
        kinds::LAMBDA => arg < UNUSED && children == 0,
        _ => false,
    }
}

fn node_stands(image: &[u8], l: Layout, i: usize) -> bool
    requires headed { Headed image.now }
    requires laid { Laid image.now l }
    requires inside { i < node_count image.now }
    ensures { result ≡ node_stands (name_count image.now) (node_count image.now) i
        (node_of (nodes_of image.now) i) }
{
    let d = node_at(image, l.nodes, i);
    let stop = d.stop as usize;
    i < stop && stop <= l.count && record_stands(l.names, d)
}

fn broken_node(image: &[u8], l: Layout) -> Option<usize>
    requires headed { Headed image.now }
    requires laid { Laid image.now l }
    ensures { place_of result ≡ broken_node image.now }
{
    for i in 0..l.count {
        if !node_stands(image, l, i) {
            return Some(i);
        }
    }
    None
}

// ---- 7: children

fn is_statement(kind: u32) -> bool
    ensures { result ≡ is_statement kind }
{
    matches!(kind, kinds::BREAK..=kinds::DEF)
}

fn is_expression(kind: u32) -> bool
    ensures { result ≡ is_expression kind }
{
    matches!(kind, kinds::LITERAL..=kinds::LAMBDA)
}

fn block_or_expression(block: bool, kind: u32) -> bool
    ensures { result ≡ (test block then eqb kind 12 else is_expression kind) }
{
    if block {
        kind == kinds::BLOCK
    } else {
        is_expression(kind)
    }
}

// Of an If's children those at odd places are Blocks, and so is the last: an even number of them has no else.
// Most parents are expressions, so they are told apart first.
fn has_business(parent: u32, c: u32, j: u32, kind: u32) -> bool
    requires { j < c }
    ensures { result ≡ belongs parent c j kind }
{
    if kinds::BLOCK < parent {
        return is_expression(kind);
    }
    let last = j + 1 == c;
    match parent {
        kinds::IF => block_or_expression(last || j % 2 == 1, kind),
        kinds::WHILE..=kinds::FOR => block_or_expression(last, kind),
        kinds::DEF => kind == if last { kinds::BLOCK } else { kinds::PARAM },
        kinds::BLOCK => is_statement(kind),
        _ => is_expression(kind),
    }
}

// Each child starts at the end of the one before. After 6 an end lies behind its node, so `at` only grows.
fn lands_on_end(image: &[u8], nodes: usize, i: usize) -> bool
    requires headed { Headed image.now }
    requires image_value { broken_node image.now ≡ none }
    requires nodes_value { (nodes ≡ nodes_from image.now) × (i < node_count image.now) }
    ensures { result ≡ lands (nodes_of image.now) (node_of (nodes_of image.now) i) (suc i)
        (node_of (nodes_of image.now) i).children }
{
    let d = node_at(image, nodes, i);
    let mut at = i + 1;
    for j in 0..d.children {
        if d.stop as usize <= at {
            return false;
        }
        let child = node_at(image, nodes, at);
        if !has_business(d.kind, d.children, j, child.kind) {
            return false;
        }
        at = child.stop as usize;
    }
    at == d.stop as usize
}

// "Node 0 is a Block ending at M."
fn root_stands(image: &[u8], l: Layout) -> bool
    requires headed { Headed image.now }
    requires laid { Laid image.now l }
    ensures { result ≡ root_stands (nodes_of image.now) }
{
    let d = node_at(image, l.nodes, 0);
    d.kind == kinds::BLOCK && d.stop as usize == l.count
}

// Linear in all: each parent walks its children once, and the children of parents that nest well are disjoint, so no
// node is walked by two parents; the first parent that does not ends the search.
fn badly_nested(image: &[u8], l: Layout) -> Option<usize>
    requires headed { Headed image.now }
    requires laid { Laid image.now l }
    requires image_value { broken_node image.now ≡ none }
    ensures { place_of result ≡ badly_nested image.now }
{
    if !root_stands(image, l) {
        return Some(0);
    }
    for i in 0..l.count {
        if !lands_on_end(image, l.nodes, i) {
            return Some(i);
        }
    }
    None
}

// ---- 8: depth

// Linear: `around` nodes before node i end behind it, so it lies at depth around + 1. Of these and itself, those that
// end at i + 1 are around no more, and `ends` has how many they are, plus 1. After 6 this needs no nesting: it is
// counting alone.
// The counts start at 1: a fill with 0 is made byte by byte, one with 1 by 16 bytes at a time.
fn deep_by_counting(image: &[u8], l: Layout) -> Option<usize>
    requires headed { Headed image.now }
    requires laid { Laid image.now l }
    requires image_value { broken_node image.now ≡ none }
    ensures { place_of result ≡ too_deep_node image.now }
{
    let mut ends = [1u16; MOST_NODES + 1];
    let mut around = 0;
    for i in 0..l.count {
        if DEEPEST <= around {
            return Some(i);
        }
        let d = node_at(image, l.nodes, i);
        ends[d.stop as usize] += 1;
        around = around + 2 - usize::from(ends[i + 1]);
    }
    None
}

// No node lies deeper than there are nodes: a small program needs no counting.
fn too_deep(image: &[u8], l: Layout) -> Option<usize>
    requires headed { Headed image.now }
    requires laid { Laid image.now l }
    requires image_value { broken_node image.now ≡ none }
    ensures { place_of result ≡ too_deep_node image.now }
{
    if l.count <= DEEPEST {
        return None;
    }
    deep_by_counting(image, l)
}

// ---- the answer

// After a header that stands: 4 for all names, then 5 for all, then 6, 7 and 8, each for all nodes.
fn judge_body(image: &[u8], l: Layout) -> Result<(), Fault>
    requires headed { Headed image.now }
    requires laid { Laid image.now l }
    ensures { fault_of result ≡ image_fault image.now }
{
    if let Some(i) = broken_name(image, l) {
        return Err(Fault::BadName(i));
    }
    if let Some(i) = unsafe_name(image, l) {
        return Err(Fault::UnsafeName(i));
    }
    if let Some(i) = broken_node(image, l) {
        return Err(Fault::BadNode(i));
    }
    if let Some(i) = badly_nested(image, l) {
        return Err(Fault::BadNesting(i));
    }
    if let Some(i) = too_deep(image, l) {
        return Err(Fault::TooDeep(i));
    }
    Ok(())
}

// Whether the bytes are a well-formed image. A call of its own: within `check` it would take that function's registers.
#[inline(never)]
pub fn judge(image: &[u8]) -> Result<(), Fault>
    ensures { fault_of result ≡ image_fault image.now }
{
    if !head_stands(image) {
        return Err(Fault::BadHead);
    }
    let l = areas(image);
    if !counts_stand(image, l) {
        return Err(Fault::BadCount);
    }
    if !offsets_stand(image, l) {
        return Err(Fault::BadOffset);
    }
    judge_body(image, l)
}

// ---- 14: "New images may not hold kind 30"

// A TreeSet is refused wherever it stands, also where the walk would not look at it.
pub fn first_tree_set(image: &[u8]) -> Option<usize>
    requires { Headed image.now }
    ensures { place_of result ≡ first_tree_set image.now }
{
    let l = areas(image);
    for i in 0..l.count {
        if node_at(image, l.nodes, i).kind == kinds::TREE_SET {
            return Some(i);
        }
    }
    None
}

// ---- the walk over the nodes of an image that stands

impl Cursor {
    // At node 0.
    pub fn first(image: &[u8]) -> Cursor
        requires { Headed image.now }
        ensures on { On image.now result }
        ensures at_value { result.at ≡ 0 }
    {
        let l = areas(image);
        Cursor {
            at: 0,
            nodes: l.nodes,
        }
    }

    // To the next node: the first child, where the node read has one.
    pub fn next(self, image: &[u8]) -> Read
        requires headed { Headed image.now }
        requires on { On image.now self }
        ensures { Moved image.now self result (self.at + 1) }
    {
        let cursor = Cursor {
            at: self.at + 1,
            ..self
        };
        let node = node_at(image, self.nodes, self.at);
        Read { cursor, node }
    }

    // To the end of the node read: the next child of its parent, where there is one.
    pub fn over(self, image: &[u8]) -> Read
        requires headed { Headed image.now }
        requires on { On image.now self }
        ensures { Moved image.now self result
            (node_of (nodes_of image.now) self.at).stop }
    {
        let node = node_at(image, self.nodes, self.at);
        let cursor = Cursor {
            at: node.stop as usize,
            ..self
        };
        Read { cursor, node }
    }
}
