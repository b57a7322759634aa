//! The numbers by which calls refuse.
ghost use Rattle.std.specs.Prelude.{◌≡◌};
ghost use Rattle.answers.specs.Numbers.{number_of};

use std::fmt;

/// What is wrong. Each case has the number by which it is answered and printed.
#[derive(Clone, Copy, PartialEq, Eq, Debug)]
pub enum Fault {
    // what the calling program causes
    /// The solver is not one of 1 to n.
    NoSuchSolver = 1,
    /// The solver count is not 1 to 16.
    SolverCount = 2,
    /// The assignment bytes are shorter than 2 × V, or not zero that far.
    AssignmentBytes = 3,
    /// A lent table or map is too short.
    NoSpace = 4,
    /// The tables stand at another stage than the token.
    WrongStage = 5,
    /// No empty clause was taken.
    NoEmptyClause = 6,
    /// A buffer for a look is shorter than 64 literals or 256 hints.
    ShortBuffer = 7,
    /// The output is too short.
    ShortOutput = 8,

    // what the formula's writer causes
    /// The header is absent, misshapen or beyond the limits.
    Header = 10,
    /// A token or line of the formula is misshapen.
    Misshapen = 11,
    /// A variable of a clause is above V.
    VariableAbove = 12,
    /// A variable stands twice in a clause.
    VariableTwice = 13,
    /// A clause has a 65th literal.
    ManyLiterals = 14,
    /// The clause count is not the header's.
    ClauseCount = 15,

    // what a solver causes
    /// No item is left: the clean ending of a partial proof.
    NoItem = 20,
    /// A text line of a partial proof is misshapen.
    MisshapenLine = 21,
    /// The line's number is not the solver's next.
    NotNext = 22,
    /// A variable of the line is above V.
    LineVariableAbove = 23,
    /// A variable stands twice in the line.
    LineVariableTwice = 24,
    /// A line or record is beyond a count limit.
    CountLimit = 25,
    /// A hint names no formula clause and no line taken.
    UnknownHint = 26,
    /// The clause of a hint has two literals or more that are not false.
    HintNotUnit = 27,
    /// The hints end without a conflict.
    NoConflict = 28,
    /// A record is misshapen, cut or missing.
    Record = 29,
    /// A deletion names a line that is not alive.
    NotAlive = 30,
}

impl Fault {
    // no `From`: `number` says at each call what the u8 is
    /// The number by which the fault is answered.
    pub fn number(self) -> u8
        ensures { result ≡ number_of self }
    {
        self as u8
    }
}

/// What is wrong, in words, for a person.
impl fmt::Display for Fault {
    ghost use Rattle.std.specs.Prelude.{Some};
    ghost use Rattle.answers.specs.Meanings.{meaning_of};

    ghost output = { λ fault. Some (meaning_of fault) };

    fn fmt<W: fmt::Write>(&self, f: &mut fmt::Formatter<W>) -> fmt::Result {
        f.write_str(match self {
            Fault::NoSuchSolver => "there is no such solver",
            Fault::SolverCount => "there must be 1 to 16 solvers",
            Fault::AssignmentBytes => "the assignment bytes are too few or not zero",
            Fault::NoSpace => "a table is too short",
            Fault::WrongStage => "the join stands at another stage",
            Fault::NoEmptyClause => "no empty clause was taken",
            Fault::ShortBuffer => "a buffer for literals or hints is too short",
            Fault::ShortOutput => "the output is too short",
            Fault::Header => "the header 'p cnf V o' is absent, misshapen or beyond the limits",
            Fault::Misshapen => "a token or line of the formula is misshapen",
            Fault::VariableAbove => "a variable is above the header's V",
            Fault::VariableTwice => "a variable stands twice in a clause",
            Fault::ManyLiterals => "a clause has more than 64 literals",
            Fault::ClauseCount => "the number of clauses is not the header's",
            Fault::NoItem => "no item is left",
            Fault::MisshapenLine => "a line of the partial proof is misshapen",
            Fault::NotNext => "the line's number is not the solver's next",
            Fault::LineVariableAbove => "a variable of the line is above the formula's",
            Fault::LineVariableTwice => "a variable stands twice in the line",
            Fault::CountLimit => "a count limit is passed",
            Fault::UnknownHint => "a hint names no clause and no line taken",
            Fault::HintNotUnit =>
                "the clause of a hint has two literals or more that are not false",
            Fault::NoConflict => "the hints end without a conflict",
            Fault::Record => "a record is misshapen, cut or missing",
            Fault::NotAlive => "a deletion names a line that is not alive",
        })
    }
}
