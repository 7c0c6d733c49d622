// The roles of names.
pub const PLAIN: u32 = 0;

pub const EXACTLY: u32 = 1;

pub const BETWEEN: u32 = 2;

pub const ANY: u32 = 3;

pub const FUNCTION: u32 = 4;
