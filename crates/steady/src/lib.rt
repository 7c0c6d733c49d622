// Whether a program has "no Def anywhere inside an If" (document 02), by form alone: one pass over the nodes, with no
// recursion over the tree. Nothing is asked of the caller.
#![tactic(auto)]

ghost use Rattle.std.specs.Prelude.{◌≡◌};
ghost use Rattle.meaning.specs.Image.{nodes_of};
ghost use Rattle.meaning.specs.Decode.{tree_of};
ghost use Rattle.meaning.specs.Known.{defs_in_ifs, steady_by, steadiness};
ghost use Rattle.meaning.proofs.Faults.{Sound};
ghost use Rattle.steady.specs.Told.{told_of, meant};

use image::{Fault, areas, judge, kinds, node_at};

// A Def: its node, and its span as the image has it.
#[derive(Clone, Copy, PartialEq, Eq)]
pub struct Def {
    pub node: usize,
    pub begins: u32,
    pub ends: u32,
}

// The first Def inside an If. A node stands inside one exactly when it lies below `until`, where the outermost If ends
// that was met last: an If inside it ends no later, and so has no say.
fn first_def(image: &[u8]) -> Option<Def>
    requires { Sound image.now }
    ensures { told_of result ≡ steady_by (nodes_of image.now)
        (defs_in_ifs (tree_of (nodes_of image.now))) }
{
    let l = areas(image);
    let mut i = 0;
    let mut until = 0;
    while i < l.count {
        let node = node_at(image, l.nodes, i);
        match node.kind {
            kinds::IF => {
                if until <= i {
                    until = node.stop as usize;
                }
                i += 1;
            }
            kinds::DEF => {
                if i < until {
                    return Some(Def {
                        node: i,
                        begins: node.begins,
                        ends: node.ends,
                    });
                }
                i += 1;
            }
            kinds::WHILE | kinds::FOR | kinds::BLOCK => {
                i += 1;
            }
            _ => {
                i = node.stop as usize;
            }
        }
    }
    None
}

// The first Def inside an If of an image, if there is one; the refusal of bytes that are no image.
pub fn steady(image: &[u8]) -> Result<Option<Def>, Fault>
    ensures { meant result ≡ steadiness image.now }
{
    judge(image)?;
    Ok(first_def(image))
}
