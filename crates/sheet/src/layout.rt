// How many records the areas of a sheet have, and where the areas start.
ghost use Rattle.std.specs.Prelude.{◌≡◌, ◌+◌, ◌*◌, ◌≤◌};
ghost use Rattle.meaning.specs.Limits.{most_names, most_types};
ghost use Rattle.sheet.specs.Counting.{most_written};

use crate::header;
use crate::records::{ELEMENT, NAME_RECORD, TYPE_RECORD};

#[derive(Clone, Copy)]
pub struct Areas {
    pub types: usize,
    pub elements: usize,
    pub names: usize,
    ghost few_types: { types ≤ most_types },
    ghost few_elements: { elements ≤ most_written },
    ghost few_names: { names ≤ most_names },
}

impl Areas {
    pub fn elements_at(self) -> usize
        ensures { result ≡ 40 + 12 * self.types }
    {
        header::LENGTH + TYPE_RECORD * self.types
    }

    pub fn names_at(self) -> usize
        ensures { result ≡ 40 + 12 * self.types + 4 * self.elements }
    {
        self.elements_at() + ELEMENT * self.elements
    }

    pub fn texts_at(self) -> usize
        ensures { result ≡ 40 + 12 * self.types + 4 * self.elements + 12 * self.names }
    {
        self.names_at() + NAME_RECORD * self.names
    }
}
