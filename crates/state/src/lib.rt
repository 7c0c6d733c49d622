// What the walk carries from node to node: its answers, the notes, and the stack of types that wait for a rule.
#![tactic(auto)]

ghost use Rattle.codes.specs.Codes.{code_number};
ghost use Rattle.state.specs.Answer.{Settles};
ghost use Rattle.state.specs.Notes.{Refused, Conflicted};

use codes::Code;
use frames::First;
use limits::MOST_NODES;
use rules::Decision;
use types::Counts;

// ---- the walk's answers

// A typing refusal: what was refused, and where, is noted.
#[derive(Clone, Copy, PartialEq, Eq)]
pub struct Noted;

// T's `SemanticResult<Ty>`: a type's number.
pub type Typed = Result<usize, Noted>;

// T's `SemanticResult<()>`.
pub type Outcome = Result<(), Noted>;

// ---- what is noted while a program is walked

#[derive(Clone, Copy)]
pub struct Notes {
    // How many types and elements the table has.
    pub counts: Counts,
    // The last refusal, if there was one: its code's number, its node, and the two numbers that its message needs.
    pub code: Option<u32>,
    pub place: usize,
    pub first: usize,
    pub second: usize,
    // Where a 25 or 23 points besides.
    pub since: First,
    // The return type so far, and the newest frame's row.
    pub returns: usize,
    pub top: usize,
}

impl Notes {
    // Notes a refusal: its code, its node, and the two numbers that its message needs. The caller answers Err of it.
    pub fn refuse(&mut self, code: Code, place: usize, a: usize, b: usize) -> Noted
        ensures { Refused self.old self.new (code_number code) place a b }
    {
        self.refuse_by_number(code.number(), place, a, b)
    }

    // The same, by the code's number, which may be any.
    pub fn refuse_by_number(&mut self, code: u32, place: usize, a: usize, b: usize) -> Noted
        ensures { Refused self.old self.new code place a b }
    {
        self.code = Some(code);
        self.place = place;
        self.first = a;
        self.second = b;
        Noted
    }

    // Notes a 25 or a 23: they "answer with a second span", that of the node that first made the old type known.
    pub fn conflict(&mut self, code: Code, place: usize, since: First, a: usize, b: usize) -> Noted
        ensures { Conflicted self.old self.new (code_number code) place since a b }
    {
        self.conflict_by_number(code.number(), place, since, a, b)
    }

    // The same, by the code's number, which may be any.
    pub fn conflict_by_number(
        &mut self,
        code: u32,
        place: usize,
        since: First,
        a: usize,
        b: usize,
    ) -> Noted
        ensures { Conflicted self.old self.new code place since a b }
    {
        let noted = self.refuse_by_number(code, place, a, b);
        self.since = since;
        noted
    }

    // What a rule decided at a node is the answer there.
    pub fn settle(&mut self, decision: Decision, place: usize) -> Typed
        ensures { Settles self.old self.new result place decision }
    {
        match decision {
            Ok(number) => Ok(number),
            Err(why) => Err(self.refuse(why.code, place, why.a, why.b)),
        }
    }
}

// ---- what the walk carries

// The types of children that wait for their parent's rule, at most one for each node.
pub type Stack = [u16; MOST_NODES];

#[derive(Drop)]
pub struct Walk {
    pub notes: Notes,
    pub stack: Stack,
}
