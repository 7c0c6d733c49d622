// The kinds of nodes, by document 01's numbers: all of them. Those that no code tells from their neighbours are not
// public.

// ---- statements
pub const BREAK: u32 = 1;

pub const CONTINUE: u32 = 2;

const PASS: u32 = 3;

pub const CLASS: u32 = 4;

pub const ASSIGN: u32 = 5;

pub const EXPR: u32 = 6;

pub const RETURN: u32 = 7;

pub const IF: u32 = 8;

pub const WHILE: u32 = 9;

pub const FOR: u32 = 10;

pub const DEF: u32 = 11;

// ---- what only statements have
pub const BLOCK: u32 = 12;

pub const PARAM: u32 = 13;

// ---- expressions
pub const LITERAL: u32 = 20;

pub const VARIABLE: u32 = 21;

pub const UNARY: u32 = 22;

pub const BINARY: u32 = 23;

pub const CALL: u32 = 24;

pub const ATTRIBUTE: u32 = 25;

pub const LIST: u32 = 26;

pub const DICT: u32 = 27;

pub const TUPLE: u32 = 28;

pub const SET: u32 = 29;

pub const TREE_SET: u32 = 30;

pub const INDEX: u32 = 31;

pub const LAMBDA: u32 = 32;
