// "Header, 8 words": the byte at which each starts.
pub const VERSION: usize = 0;

pub const NAME_COUNT: usize = 4;

pub const NAMES: usize = 8;

pub const NODE_COUNT: usize = 12;

pub const NODES: usize = 16;

pub const TEXT_COUNT: usize = 20;

pub const TEXTS: usize = 24;

pub const TOTAL: usize = 28;

// And where the areas start.
pub const LENGTH: usize = 32;

// "Version 1".
pub const OURS: u32 = 1;
