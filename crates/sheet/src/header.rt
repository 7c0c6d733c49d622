// "Header, 10 words": the byte at which each starts.
pub const VERSION: usize = 0;

pub const TYPE_COUNT: usize = 4;

pub const ELEMENT_COUNT: usize = 12;

pub const NAME_COUNT: usize = 20;

pub const NAMES: usize = 24;

pub const TOTAL: usize = 36;

// And where the areas start.
pub const LENGTH: usize = 40;

// "Version 1".
pub const OURS: usize = 1;
