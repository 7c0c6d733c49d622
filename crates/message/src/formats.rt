// T's format strings, in the order of the codes 20 to 50: `_` stands for what the message names there.
ghost use Rattle.std.specs.Prelude.{◌≡◌, ◌≤◌, length};
ghost use Rattle.codes.specs.Codes.{code_number};
ghost use Rattle.words.specs.Words.{put_at};
ghost use Rattle.message.specs.Told.{format_of};

use codes::Code;
use words::put;

// The longest is that of a function's arity.
pub const LONGEST: usize = 70;

// The format string of a code.
pub fn format_of(code: Code) -> &'static [u8]
    ensures { result.now ≡ format_of (code_number code) }
{
    match code {
        Code::Break => b"SyntaxError: 'break' outside loop",
        Code::Continue => b"SyntaxError: 'continue' outside loop",
        Code::InconsistentReturn => b"TypeError: inconsistent return types in function: _ vs _",
        Code::IncompatibleBranches =>
            b"TypeError: variable '_' has incompatible types across branches",
        Code::NotIterable => b"TypeError: type '_' is not iterable",
        Code::CannotAssign => b"TypeError: cannot assign value of type _ to variable of type _",
        Code::UnpackLength => b"TypeError: cannot unpack tuple of length _ into _ variables",
        Code::UnpackNonIterable => b"TypeError: cannot unpack non-iterable type _",
        Code::InvalidTarget => b"Invalid assignment target",
        Code::Plus => b"TypeError: unsupported operand types for +: _ and _",
        Code::Times => b"TypeError: unsupported operand types for *: _ and _",
        Code::Compare => b"TypeError: cannot compare _ and _",
        Code::Equality => b"TypeError: equality operands must have same type, got _ and _",
        Code::NumericPair => b"TypeError: expected numeric types, got _ and _",
        Code::IntOrFloat => b"TypeError: expected Int or Float, got _",
        Code::ExpectedBool => b"TypeError: expected Bool, got _",
        Code::Condition => b"TypeError: condition must be Bool",
        Code::BuiltinArity => b"ArityError: _() takes _ argument(s) but _ given",
        Code::FunctionArity =>
            b"ArityError: function '_' takes _ positional arguments but _ were given",
        Code::Input => b"TypeError: input() prompt must be a string, got _",
        Code::Len => b"TypeError: object of type _ has no len()",
        Code::Range => b"TypeError: range() arguments must be integers, got _",
        Code::MapFirst => b"TypeError: map() argument 1 must be callable, got _",
        Code::MapSecond => b"TypeError: map() argument 2 must be iterable, got _",
        Code::FilterFirst => b"TypeError: filter() argument 1 must be callable, got _",
        Code::FilterSecond => b"TypeError: filter() argument 2 must be iterable, got _",
        Code::ListIndex => b"TypeError: list indices must be integers, not _",
        Code::DictKey => b"TypeError: dictionary key type mismatch: expected _, got _",
        Code::TupleIndex => b"TypeError: tuple indices must be integers, not _",
        Code::StringIndex => b"TypeError: string indices must be integers, not _",
        Code::NotSubscriptable => b"TypeError: type '_' is not subscriptable",
    }
}

// Writes it at the front of `out` and returns its length. Each text has a call of its own: one call for all of them
// becomes a table of their addresses, which an archive for C then has among its data.
pub fn put_format(code: Code, out: &mut [u8]) -> usize
    requires { length (format_of (code_number code)) ≤ length out.old }
    ensures out_after { out.new ≡ put_at out.old 0 (format_of (code_number code)) }
    ensures value { result ≡ length (format_of (code_number code)) }
{
    match code {
        Code::Break => put(out, 0, format_of(Code::Break)),
        Code::Continue => put(out, 0, format_of(Code::Continue)),
        Code::InconsistentReturn => put(out, 0, format_of(Code::InconsistentReturn)),
        Code::IncompatibleBranches => put(out, 0, format_of(Code::IncompatibleBranches)),
        Code::NotIterable => put(out, 0, format_of(Code::NotIterable)),
        Code::CannotAssign => put(out, 0, format_of(Code::CannotAssign)),
        Code::UnpackLength => put(out, 0, format_of(Code::UnpackLength)),
        Code::UnpackNonIterable => put(out, 0, format_of(Code::UnpackNonIterable)),
        Code::InvalidTarget => put(out, 0, format_of(Code::InvalidTarget)),
        Code::Plus => put(out, 0, format_of(Code::Plus)),
        Code::Times => put(out, 0, format_of(Code::Times)),
        Code::Compare => put(out, 0, format_of(Code::Compare)),
        Code::Equality => put(out, 0, format_of(Code::Equality)),
        Code::NumericPair => put(out, 0, format_of(Code::NumericPair)),
        Code::IntOrFloat => put(out, 0, format_of(Code::IntOrFloat)),
        Code::ExpectedBool => put(out, 0, format_of(Code::ExpectedBool)),
        Code::Condition => put(out, 0, format_of(Code::Condition)),
        Code::BuiltinArity => put(out, 0, format_of(Code::BuiltinArity)),
        Code::FunctionArity => put(out, 0, format_of(Code::FunctionArity)),
        Code::Input => put(out, 0, format_of(Code::Input)),
        Code::Len => put(out, 0, format_of(Code::Len)),
        Code::Range => put(out, 0, format_of(Code::Range)),
        Code::MapFirst => put(out, 0, format_of(Code::MapFirst)),
        Code::MapSecond => put(out, 0, format_of(Code::MapSecond)),
        Code::FilterFirst => put(out, 0, format_of(Code::FilterFirst)),
        Code::FilterSecond => put(out, 0, format_of(Code::FilterSecond)),
        Code::ListIndex => put(out, 0, format_of(Code::ListIndex)),
        Code::DictKey => put(out, 0, format_of(Code::DictKey)),
        Code::TupleIndex => put(out, 0, format_of(Code::TupleIndex)),
        Code::StringIndex => put(out, 0, format_of(Code::StringIndex)),
        Code::NotSubscriptable => put(out, 0, format_of(Code::NotSubscriptable)),
    }
}
