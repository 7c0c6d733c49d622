// What a Literal's arg says.
pub const BOOL: u32 = 0;

pub const INT: u32 = 1;

pub const STRING: u32 = 2;

pub const FLOAT: u32 = 3;

pub const NONE: u32 = 4;
