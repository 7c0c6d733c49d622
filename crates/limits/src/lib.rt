// The limits of document 01 for code, each once, by the names that `meaning/specs/Limits` has for the definitions. A
// contract names those: that the two are the same numbers is a part of every proof that meets both.
#![tactic(auto)]

// "All numbers are u32": the bytes of one.
pub const WORD: usize = 4;

// ---- of an image

// "N is 0..128, M is 1..2,048, text is 0..8,192 bytes".
pub const MOST_NAMES: usize = 128;

pub const MOST_NODES: usize = 2048;

pub const MOST_TEXT: usize = 8192;

// "Text length 1..64", in images and in sheets.
pub const LONGEST_NAME: usize = 64;

// "Depth 64 is allowed, 65 refused".
pub const DEEPEST: usize = 64;

// "An image has at most 59,936 bytes": a header of 8 words, 5 words for each name and 6 for each node, and the texts.
pub const LARGEST_IMAGE: usize = WORD * (8 + 5 * MOST_NAMES + 6 * MOST_NODES) + MOST_TEXT;

// ---- of the walk

// "A Def needs a ninth frame (module included)".
pub const MOST_FRAMES: usize = 8;

// ---- of a sheet

// "At most 2,048 types, 2,047 elements": as many structured types as nodes.
pub const MOST_TYPES: usize = 2048;

pub const MOST_ELEMENTS: usize = 2047;

// "A sheet never exceeds 42,532 bytes": a header of 10 words, 3 words for each type and each name and one for each
// element, and the texts.
pub const LARGEST_SHEET: usize = WORD * (10 + 3 * MOST_TYPES + MOST_ELEMENTS + 3 * MOST_NAMES)
    + LONGEST_NAME * MOST_NAMES;

// ---- of a sheet in words

// "One whose text is longer than 200 bytes as its outermost kind with dots".
pub const LONGEST_SHOWN: usize = 200;

// Enough for a sheet's names, `step: Int` and the line's end.
pub const LARGEST_SHOW: usize = MOST_NAMES * (LONGEST_NAME + 2 + LONGEST_SHOWN + 1);

// Enough for what changed, `+ mode: String`, a line for each name of both sheets.
pub const LARGEST_CHANGES: usize = 2 * MOST_NAMES * (2 + LONGEST_NAME + 2 + LONGEST_SHOWN + 1);

// ---- of the program `typecheck`

// "Its message buffer has 1,024 bytes, its sheet buffer 42,532; it reads at most 59,937 bytes".
pub const MESSAGE_BUFFER: usize = 1024;

pub const SHEET_BUFFER: usize = LARGEST_SHEET;

pub const READ_AT_MOST: usize = LARGEST_IMAGE + 1;
