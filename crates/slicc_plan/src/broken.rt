ghost use Rattle.std.specs.Prelude.{◌≡◌, [], ◌∷◌};
ghost use Rattle.slicc_plan.specs.BrokenDeclarations.{refusal_of};
ghost use Rattle.slicc_plan.specs.Order.{IsFirstOf, comes_before, earlier_of, earlier_of_both, first_after, is_less, number_of, rank_of, second_rank, subject_of};

use crate::refusal::Refusal;
use slicc_ast::tree::Span;

/// The rules of names, types, flow and machines that a protocol has to keep. Those that no rule of SLICC's own is known for
/// are this project's.
#[derive(Clone, Copy)]
pub enum Rule {
    /// A name is declared twice in its scope.
    TwiceDeclared,
    /// A type's name isn't known in its scope.
    UnknownType,
    /// There is more of something than a protocol may have.
    LimitPassed,
    /// A field's type is none that fields may have.
    NoFieldType,
    /// An attribute or a parameter's literal has a value that it may not have.
    BadValue,
    /// A prototype or an external structure bears no built-in name.
    NotBuiltIn,
    /// A name isn't there in its scope.
    NotThere,
    /// A form isn't allowed where it is.
    NotAllowedHere,
    /// A type isn't the one that is wanted.
    WrongType,
    /// A call has too few or too many arguments.
    WrongCount,
    /// What is written may not be written.
    NotWritable,
    /// A way through a function ends without its value, or with one that isn't wanted.
    NoReturn,
    /// Functions call each other in a circle.
    CallCircle,
    /// A body with all that it calls is too large.
    BodyTooLarge,
    /// A state and an event have two written transitions.
    TwoTransitions,
    /// The functions that read and write a line's state aren't both there, or haven't the arguments that they should.
    StateFunctions,
    /// The ports, the buffers and their networks don't agree.
    Networks,
    /// There is no machine.
    NoMachine,
    /// A machine has no state or no event.
    NoStates,
    /// What only reads changes something.
    Changes,
    /// A transition has a star as its next state, and its machine has no function that answers which it is.
    NextStateFunction,
}

impl Rule {
    /// What the rule is about.
    pub fn subject(self) -> Subject
        ensures { result ≡ subject_of self }
    {
        match self {
            Rule::TwiceDeclared
            | Rule::UnknownType
            | Rule::LimitPassed
            | Rule::NoFieldType
            | Rule::BadValue
            | Rule::NotBuiltIn => Subject::Declarations,
            Rule::NotThere
            | Rule::NotAllowedHere
            | Rule::WrongType
            | Rule::WrongCount
            | Rule::NotWritable
            | Rule::NoReturn => Subject::Bodies,
            Rule::CallCircle
            | Rule::BodyTooLarge
            | Rule::TwoTransitions
            | Rule::StateFunctions
            | Rule::Networks
            | Rule::NoMachine
            | Rule::NoStates
            | Rule::Changes
            | Rule::NextStateFunction => Subject::Machines,
        }
    }

    /// The number in the rule's code, 1 to 21.
    pub fn number(self) -> u8
        ensures { result ≡ number_of self }
    {
        match self {
            Rule::TwiceDeclared => 1,
            Rule::UnknownType => 2,
            Rule::LimitPassed => 3,
            Rule::NoFieldType => 4,
            Rule::BadValue => 5,
            Rule::NotBuiltIn => 6,
            Rule::NotThere => 7,
            Rule::NotAllowedHere => 8,
            Rule::WrongType => 9,
            Rule::WrongCount => 10,
            Rule::NotWritable => 11,
            Rule::NoReturn => 12,
            Rule::CallCircle => 13,
            Rule::BodyTooLarge => 14,
            Rule::TwoTransitions => 15,
            Rule::StateFunctions => 16,
            Rule::Networks => 17,
            Rule::NoMachine => 18,
            Rule::NoStates => 19,
            Rule::Changes => 20,
            Rule::NextStateFunction => 21,
        }
    }
}

/// What a rule is about. The rules of declarations are judged first, and those of machines last.
#[derive(Clone, Copy)]
pub enum Subject {
    Declarations,
    Bodies,
    Machines,
}

/// A rule that a protocol breaks, and where.
#[derive(Clone, Copy)]
pub struct Broken {
    pub rule: Rule,
    /// Of a rule of machines the number of the machine, in the order of reading and of the text; else 0.
    pub machine: u16,
    /// The name, expression or declaration that breaks the rule.
    pub place: Span,
    /// The second place that the rule speaks of, where it speaks of two.
    pub other: Option<Span>,
}

impl Broken {
    // What the order looks at, the weightiest first.
    fn rank(self) -> [u32; 8]
        ensures { result ≡ rank_of self }
    {
        let number = self.rule.number() as u32;
        let file = self.place.file as u32;
        let start = self.place.start;
        let [is_there, other_file, other_start] = second_rank(self.other);
        match self.rule.subject() {
            Subject::Declarations => [1, file, start, number, 0, is_there, other_file, other_start],
            Subject::Bodies => [2, file, start, number, 0, is_there, other_file, other_start],
            Subject::Machines => [
                3,
                self.machine as u32,
                number,
                file,
                start,
                is_there,
                other_file,
                other_start,
            ],
        }
    }

    /// Whether it would be told rather than the other.
    pub fn comes_before(self, other: Broken) -> bool
        ensures { result ≡ comes_before self other }
    {
        is_less(&self.rank(), &other.rank())
    }
}

// What the order looks at in the second place, where there is one.
fn second_rank(other: Option<Span>) -> [u32; 3]
    ensures { result ≡ second_rank other }
{
    match other {
        None => [0, 0, 0],
        Some(place) => [1, place.file as u32, place.start],
    }
}

// Whether the first number in which the two differ is less in the first.
fn is_less(a: &[u32], b: &[u32]) -> bool
    ensures { result ≡ is_less a.now b.now }
{
    let [first_a, a @ ..] = a else {
        return !b.is_empty();
    };
    match b {
        [first_b, b @ ..] => *first_a < *first_b || *first_a == *first_b && is_less(a, b),
        [] => false,
    }
}

// The one of two that comes first, where there may be one already.
fn earlier(first: Option<Broken>, b: Broken) -> Broken
    ensures { result ≡ earlier_of first b }
{
    match first {
        None => b,
        Some(f) => { if b.comes_before(f) { b } else { f } }
    }
}

/// The one of a broken rule and of what was found before it that is told.
pub fn earlier_broken(first: Option<Broken>, b: Broken) -> Option<Broken>
    ensures { result ≡ first_after first (b ∷ []) }
{
    Some(earlier(first, b))
}

/// Of two things that were found, if they were, the one that is told.
pub fn earlier_of_two(first: Option<Broken>, then: Option<Broken>) -> Option<Broken>
    ensures { result ≡ earlier_of_both first then }
{
    match then {
        None => first,
        Some(b) => Some(earlier(first, b)),
    }
}

/// Of broken rules the one that is told, if there are any.
pub fn first_broken(broken: &[Broken]) -> Option<Broken>
    ensures { IsFirstOf broken.now result }
{
    let mut first = None;
    for b in broken {
        first = Some(earlier(first, *b));
    }
    first
}

/// How a broken rule is told.
pub fn refused(b: Broken) -> Refusal
    ensures { result ≡ refusal_of b }
{
    Refusal::Rule {
        number: b.rule.number(),
        place: b.place,
        other: b.other,
    }
}
