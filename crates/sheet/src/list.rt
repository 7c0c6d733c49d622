// The names of a sheet with their types, as the writer takes them and the reader gives them.
ghost use Rattle.std.specs.Prelude.{◌≡◌, ◌<◌};
ghost use Rattle.meaning.specs.Limits.{most_names};
ghost use Rattle.sheet.specs.Listing.{start_at, length_at, type_at, PutName};

use limits::MOST_NAMES;

// Where a name's text starts in the bytes that it lies in, how long it is, and the type's number in the table.
#[derive(Clone, Copy)]
pub struct ListedName {
    pub start: u32,
    pub len: u32,
    pub ty: u32,
}

const NO_NAME: ListedName = ListedName {
    start: 0,
    len: 0,
    ty: 0,
};

pub type NameList = [ListedName; MOST_NAMES];

// A list before a name is written to it.
pub const NO_ENTRIES: NameList = [NO_NAME; MOST_NAMES];

pub fn start_of(names: &NameList, k: usize) -> usize
    requires { k < most_names }
    ensures { result ≡ start_at names.now k }
{
    names[k].start as usize
}

pub fn length_of(names: &NameList, k: usize) -> usize
    requires { k < most_names }
    ensures { result ≡ length_at names.now k }
{
    names[k].len as usize
}

pub fn type_of(names: &NameList, k: usize) -> usize
    requires { k < most_names }
    ensures { result ≡ type_at names.now k }
{
    names[k].ty as usize
}

// Writes name k: where its text starts, how long it is, and its type.
pub fn put_name(names: &mut NameList, k: usize, start: u32, len: u32, ty: u32)
    requires { k < most_names }
    ensures { PutName names.old names.new k start len ty }
{
    names[k] = ListedName { start, len, ty };
}
