// The areas behind the header: "type records (kind, p, q)", elements, "name records: text start, length, type". The
// bytes of each.
pub const TYPE_RECORD: usize = 12;

pub const ELEMENT: usize = 4;

pub const NAME_RECORD: usize = 12;

// The bytes at which the second and the third word of a record start.
pub const SECOND_WORD: usize = 4;

pub const THIRD_WORD: usize = 8;
