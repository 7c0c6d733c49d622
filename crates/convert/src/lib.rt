// The converter for stored images: it "turns each TreeSet into a Set, all else equal byte for byte" (document 02), so
// that what was stored before TreeSets were retired is judged as it was. It judges the image and types nothing. Nothing
// is asked of the caller.
#![tactic(auto)]

ghost use Rattle.std.specs.Prelude.{◌≡◌, ◌≤◌, length};
ghost use Rattle.meaning.specs.Answer.{overlaid};
ghost use Rattle.meaning.specs.Convert.{converted, convert_answer};
ghost use Rattle.meaning.proofs.Faults.{Sound};
ghost use Rattle.convert.specs.Outcome.{Converts};
ghost use Rattle.convert.specs.declared.Unconverted.TheVariants.{Faulty};

use image::{Fault, areas, judge, kinds, node_at, put_kind};
use words::put;

// Why no image was written: the refusals 1 to 8, or 15.
#[derive(Clone, Copy, PartialEq, Eq)]
pub enum Unconverted {
    Faulty(Fault),
    ShortOutput,
}

impl From<Fault> for Unconverted {
    ghost from_gives = { λ f e. e ≡ Faulty f };

    fn from(f: Fault) -> Unconverted {
        Unconverted::Faulty(f)
    }
}

// A copy of the image, in which each TreeSet is then made a Set. Kinds are read from the image, which stays as it is.
fn write_converted(image: &[u8], out: &mut [u8])
    requires sound { Sound image.now }
    requires image_in_bounds { length image.now ≤ length out.old }
    ensures { out.new ≡ overlaid (converted image.now) out.old }
{
    put(out, 0, image);
    let l = areas(image);
    for i in 0..l.count {
        let node = node_at(image, l.nodes, i);
        if node.kind == kinds::TREE_SET {
            put_kind(out, l.nodes, i, kinds::SET);
        }
    }
}

// Writes the converted image to the front of a buffer, keeps the bytes behind it, and tells its length. A refusal
// touches nothing.
pub fn convert(image: &[u8], out: &mut [u8]) -> Result<usize, Unconverted>
    ensures { Converts (convert_answer image.now (length out.old))
        result out.old out.new }
{
    judge(image)?;
    if out.len() < image.len() {
        return Err(Unconverted::ShortOutput);
    }
    write_converted(image, out);
    Ok(image.len())
}
