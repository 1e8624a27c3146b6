//! Programs with a jump that is not forward within its body, with ways that clash, or with a way past the end.
use crate::row::{Around, Row, Step, Wanted};
use ruby_value::Kind;

/// Programs with a jump that is not forward within its body, with ways that clash, or with a way past the end.
pub const WAYS: &[Row] = &[
    Row {
        shows: "a jump to itself",
        around: Around::Alone,
        steps: &[Step::Jump(0)],
        wanted: Wanted::Broken(3, 0, 0, &[]),
    },
    Row {
        shows: "a jump back",
        around: Around::Alone,
        steps: &[Step::Int(1), Step::Jump(0), Step::Ret],
        wanted: Wanted::Broken(3, 0, 1, &[Kind::Int]),
    },
    Row {
        shows: "a jump past the end",
        around: Around::Alone,
        steps: &[Step::Jump(9), Step::Ret],
        wanted: Wanted::Broken(3, 0, 0, &[]),
    },
    Row {
        shows: "a jump to the end",
        around: Around::Alone,
        steps: &[Step::Jump(2), Step::Ret],
        wanted: Wanted::Broken(3, 0, 0, &[]),
    },
    Row {
        shows: "an unless back",
        around: Around::Alone,
        steps: &[Step::Bool(true), Step::Unless(0), Step::Ret],
        wanted: Wanted::Broken(3, 0, 1, &[Kind::Bool]),
    },
    Row {
        shows: "an unless past the end",
        around: Around::Alone,
        steps: &[Step::Bool(true), Step::Unless(3), Step::Ret],
        wanted: Wanted::Broken(3, 0, 1, &[Kind::Bool]),
    },
    Row {
        shows: "two ways with stacks of two lengths",
        around: Around::Alone,
        steps: &[Step::Bool(true), Step::Unless(3), Step::Int(1), Step::Ret],
        wanted: Wanted::Broken(4, 0, 3, &[]),
    },
    Row {
        shows: "of two ways that clash the stack of the first is kept",
        around: Around::Local,
        steps: &[
            Step::Int(1),
            Step::Bool(true),
            Step::Unless(4),
            Step::Store(0),
            Step::Ret,
        ],
        wanted: Wanted::Broken(4, 0, 4, &[Kind::Int]),
    },
    Row {
        shows: "two ways with two kinds",
        around: Around::Alone,
        steps: &[
            Step::Bool(true),
            Step::Unless(4),
            Step::Int(1),
            Step::Jump(5),
            Step::Bool(true),
            Step::Ret,
        ],
        wanted: Wanted::Broken(4, 0, 5, &[Kind::Int]),
    },
    Row {
        shows: "two ways with references to two structures",
        around: Around::Alone,
        steps: &[
            Step::Bool(true),
            Step::Unless(4),
            Step::Entry(0),
            Step::Jump(5),
            Step::Entry(2),
            Step::Ret,
        ],
        wanted: Wanted::Broken(4, 0, 5, &[Kind::Entry(0)]),
    },
    Row {
        shows: "two ways with two inner messages",
        around: Around::Alone,
        steps: &[Step::Bool(true), Step::Unless(3), Step::Peek(0), Step::Ret],
        wanted: Wanted::Broken(4, 0, 3, &[]),
    },
    Row {
        shows: "two ways with inner messages of two types",
        around: Around::Alone,
        steps: &[
            Step::Bool(true),
            Step::Unless(4),
            Step::Peek(0),
            Step::Jump(5),
            Step::Peek(2),
            Step::Ret,
        ],
        wanted: Wanted::Broken(4, 0, 5, &[]),
    },
    Row {
        shows: "two ways with two out messages",
        around: Around::Alone,
        steps: &[Step::Bool(true), Step::Unless(3), Step::New(4), Step::Ret],
        wanted: Wanted::Broken(4, 0, 3, &[]),
    },
    Row {
        shows: "a way from an instruction to which none leads",
        around: Around::Alone,
        steps: &[Step::Jump(2), Step::Int(1), Step::Ret],
        wanted: Wanted::Broken(4, 0, 2, &[]),
    },
    Row {
        shows: "the third way clashes",
        around: Around::Alone,
        steps: &[
            Step::Bool(true),
            Step::Unless(5),
            Step::Bool(true),
            Step::Unless(5),
            Step::Int(1),
            Step::Ret,
        ],
        wanted: Wanted::Broken(4, 0, 5, &[]),
    },
    Row {
        shows: "ways that clash count before what is not there",
        around: Around::Alone,
        steps: &[
            Step::Bool(true),
            Step::Unless(3),
            Step::Int(1),
            Step::Load(9),
            Step::Ret,
        ],
        wanted: Wanted::Broken(4, 0, 3, &[]),
    },
    Row {
        shows: "a body without instructions",
        around: Around::Alone,
        steps: &[],
        wanted: Wanted::Broken(6, 0, 0, &[]),
    },
    Row {
        shows: "a body without instructions after two others",
        around: Around::Third,
        steps: &[],
        wanted: Wanted::Broken(6, 2, 0, &[]),
    },
    Row {
        shows: "a push at the end",
        around: Around::Alone,
        steps: &[Step::Int(1)],
        wanted: Wanted::Broken(6, 0, 0, &[]),
    },
    Row {
        shows: "a not at the end",
        around: Around::Alone,
        steps: &[Step::Bool(true), Step::Not],
        wanted: Wanted::Broken(6, 0, 1, &[Kind::Bool]),
    },
    Row {
        shows: "a push at the end to which no way leads",
        around: Around::Alone,
        steps: &[Step::Ret, Step::Int(1)],
        wanted: Wanted::Broken(6, 0, 1, &[]),
    },
    Row {
        shows: "a jump over the end comes before it",
        around: Around::Alone,
        steps: &[Step::Jump(1)],
        wanted: Wanted::Broken(3, 0, 0, &[]),
    },
];
