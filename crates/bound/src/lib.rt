// What a module may bind (document 02), by form alone, whatever the walk does there: one pass over the nodes, with no
// recursion over the tree.
#![tactic(auto)]

ghost use Rattle.std.specs.Prelude.{◌≡◌, ◌<◌, ◌≤◌};
ghost use Rattle.meaning.specs.Image.{node_count, nodes_from, nodes_of};
ghost use Rattle.meaning.specs.Bound.{may_bind};
ghost use Rattle.meaning.specs.Decode.{tree_of};
ghost use Rattle.meaning.proofs.Faults.{Sound};
ghost use Rattle.bound.specs.Marks.{marks_of, Targeted, Stepped};

use image::{areas, kinds, node_at};
use limits::MOST_NAMES;

// A yes or no for each name.
pub type Marks = [bool; MOST_NAMES];

const NOTHING: Marks = [false; MOST_NAMES];

// "The Variables that are its target or lie within it through Tuples alone": the target's nodes are `from` to `end`, a
// Tuple's parts stand behind it, and everything else is passed whole.
fn mark_target(image: &[u8], nodes: usize, from: usize, end: usize, marks: &mut Marks)
    requires sound { Sound image.now }
    requires nodes_value { (nodes ≡ nodes_from image.now) × (end ≤ node_count image.now) }
    ensures { Targeted image.now from end marks.old marks.new }
{
    let mut j = from;
    while j < end {
        let node = node_at(image, nodes, j);
        match node.kind {
            kinds::TUPLE => {
                j += 1;
            }
            kinds::VARIABLE => {
                marks[node.arg as usize] = true;
                j = node.stop as usize;
            }
            _ => {
                j = node.stop as usize;
            }
        }
    }
}

// Marks what node i itself may bind, and gives the node to go on from: the next one where bodies are to be looked
// through, and otherwise the one behind it. So no Def, no Class and no expression is entered.
fn mark_node(image: &[u8], nodes: usize, i: usize, marks: &mut Marks) -> usize
    requires sound { Sound image.now }
    requires nodes_value { (nodes ≡ nodes_from image.now) × (i < node_count image.now) }
    ensures { Stepped image.now i marks.old marks.new result }
{
    let node = node_at(image, nodes, i);
    match node.kind {
        kinds::ASSIGN => {
            let target = node_at(image, nodes, i + 1);
            mark_target(image, nodes, i + 1, target.stop as usize, marks);
            node.stop as usize
        }
        kinds::FOR => {
            marks[node.arg as usize] = true;
            i + 1
        }
        kinds::IF | kinds::WHILE | kinds::BLOCK => i + 1,
        _ => node.stop as usize,
    }
}

// For each name whether "an Assign or a For at module level may bind" it, "through If, While and For bodies at any
// depth, but not inside Def or Class".
pub fn may_bind(image: &[u8]) -> Marks
    requires { Sound image.now }
    ensures { result ≡ marks_of (may_bind (tree_of (nodes_of image.now))) }
{
    let l = areas(image);
    let mut marks = NOTHING;
    let mut i = 0;
    while i < l.count {
        i = mark_node(image, l.nodes, i, &mut marks);
    }
    marks
}
