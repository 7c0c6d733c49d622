// The codes of typing refusals, in document 01's words: each by its one name, with its number, and a number's code.
#![tactic(auto)]

ghost use Rattle.std.specs.Prelude.{◌≡◌};
ghost use Rattle.codes.specs.Codes.{code_number, CodeOf};

#[derive(Clone, Copy, PartialEq, Eq)]
pub enum Code {
    Break = 20,
    Continue = 21,
    InconsistentReturn = 22,
    IncompatibleBranches = 23,
    NotIterable = 24,
    CannotAssign = 25,
    UnpackLength = 26,
    UnpackNonIterable = 27,
    InvalidTarget = 28,
    Plus = 29,
    Times = 30,
    Compare = 31,
    Equality = 32,
    NumericPair = 33,
    IntOrFloat = 34,
    ExpectedBool = 35,
    Condition = 36,
    BuiltinArity = 37,
    FunctionArity = 38,
    Input = 39,
    Len = 40,
    Range = 41,
    MapFirst = 42,
    MapSecond = 43,
    FilterFirst = 44,
    FilterSecond = 45,
    ListIndex = 46,
    DictKey = 47,
    TupleIndex = 48,
    StringIndex = 49,
    NotSubscriptable = 50,
}

impl Code {
    pub fn number(self) -> u32
        ensures { result ≡ code_number self }
    {
        self as u32
    }
}

// A number that is no code of a typing refusal.
#[derive(Clone, Copy, PartialEq, Eq)]
pub struct NoCode;

impl TryFrom<u32> for Code {
    type Error = NoCode;

    ghost try_from_gives = { CodeOf };

    fn try_from(number: u32) -> Result<Code, NoCode> {
        match number {
            20 => Ok(Code::Break),
            21 => Ok(Code::Continue),
            22 => Ok(Code::InconsistentReturn),
            23 => Ok(Code::IncompatibleBranches),
            24 => Ok(Code::NotIterable),
            25 => Ok(Code::CannotAssign),
            26 => Ok(Code::UnpackLength),
            27 => Ok(Code::UnpackNonIterable),
            28 => Ok(Code::InvalidTarget),
            29 => Ok(Code::Plus),
            30 => Ok(Code::Times),
            31 => Ok(Code::Compare),
            32 => Ok(Code::Equality),
            33 => Ok(Code::NumericPair),
            34 => Ok(Code::IntOrFloat),
            35 => Ok(Code::ExpectedBool),
            36 => Ok(Code::Condition),
            37 => Ok(Code::BuiltinArity),
            38 => Ok(Code::FunctionArity),
            39 => Ok(Code::Input),
            40 => Ok(Code::Len),
            41 => Ok(Code::Range),
            42 => Ok(Code::MapFirst),
            43 => Ok(Code::MapSecond),
            44 => Ok(Code::FilterFirst),
            45 => Ok(Code::FilterSecond),
            46 => Ok(Code::ListIndex),
            47 => Ok(Code::DictKey),
            48 => Ok(Code::TupleIndex),
            49 => Ok(Code::StringIndex),
            50 => Ok(Code::NotSubscriptable),
            _ => Err(NoCode),
        }
    }
}

// "25 and 23 answer with a second span": their numbers, for whoever has an answer in numbers.
pub const CANNOT_ASSIGN: u32 = Code::CannotAssign as u32;

pub const INCOMPATIBLE_BRANCHES: u32 = Code::IncompatibleBranches as u32;
