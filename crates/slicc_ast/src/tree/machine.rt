use crate::tree::{Block, Enumeration, Function, Name, Pairs, Span, States, Structure, TypeName};
use ruby_base::{Seq, Text};

/// `machine(MachineType:name, "title" pairs) : parameters { declarations }`, in which `MachineType:` may be left out.
pub struct Machine {
    pub has_type: bool,
    pub name: Name,
    pub title: Text,
    pub pairs: Pairs,
    pub parameters: Seq<Parameter>,
    pub declarations: Seq<Decl>,
    pub span: Span,
}

impl Drop for Machine {
    fn drop(self) {
        let Machine {
            has_type: _,
            name: _,
            title: _,
            pairs: _,
            parameters: _,
            declarations: _,
            span: _,
        } = self;
    }
}

/// `kind * name := literal pairs;`, in which the star and the literal may be left out.
pub struct Parameter {
    pub kind: TypeName,
    pub has_star: bool,
    pub name: Name,
    pub literal: Option<Literal>,
    pub pairs: Pairs,
    pub span: Span,
}

impl Drop for Parameter {
    fn drop(self) {
        let Parameter {
            kind: _,
            has_star: _,
            name: _,
            literal: _,
            pairs: _,
            span: _,
        } = self;
    }
}

pub enum Literal {
    Number(i64, Span),
    /// The number behind a minus sign.
    Minus(i64, Span),
    Quoted(Text, Span),
    True(Span),
    False(Span),
}

impl Drop for Literal {
    fn drop(self) {
        match self {
            Literal::Number(_, _) => {}
            Literal::Minus(_, _) => {}
            Literal::Quoted(_, _) => {}
            Literal::True(_) => {}
            Literal::False(_) => {}
        }
    }
}

pub enum Decl {
    States(States),
    Enumeration(Enumeration),
    Structure(Structure),
    OutPort(OutPort),
    InPort(InPort),
    Action(Action),
    Transition(Transition),
    Function(Function),
    Object(Object),
}

impl Drop for Decl {
    fn drop(self) {
        match self {
            Decl::States(_) => {}
            Decl::Enumeration(_) => {}
            Decl::Structure(_) => {}
            Decl::OutPort(_) => {}
            Decl::InPort(_) => {}
            Decl::Action(_) => {}
            Decl::Transition(_) => {}
            Decl::Function(_) => {}
            Decl::Object(_) => {}
        }
    }
}

/// `out_port(name, message, buffer pairs);`
pub struct OutPort {
    pub name: Name,
    pub message: TypeName,
    pub buffer: Name,
    pub pairs: Pairs,
    pub span: Span,
}

impl Drop for OutPort {
    fn drop(self) {
        let OutPort {
            name: _,
            message: _,
            buffer: _,
            pairs: _,
            span: _,
        } = self;
    }
}

/// `in_port(name, message, buffer pairs) body`
pub struct InPort {
    pub name: Name,
    pub message: TypeName,
    pub buffer: Name,
    pub pairs: Pairs,
    pub body: Block,
    pub span: Span,
}

impl Drop for InPort {
    fn drop(self) {
        let InPort {
            name: _,
            message: _,
            buffer: _,
            pairs: _,
            body: _,
            span: _,
        } = self;
    }
}

/// `action(name pairs) body`
pub struct Action {
    pub name: Name,
    pub pairs: Pairs,
    pub body: Block,
    pub span: Span,
}

impl Drop for Action {
    fn drop(self) {
        let Action {
            name: _,
            pairs: _,
            body: _,
            span: _,
        } = self;
    }
}

/// `transition(states, events, next pairs) { actions }`, in which the next state may be left out.
pub struct Transition {
    pub states: Names,
    pub events: Names,
    pub next: Option<NextState>,
    pub pairs: Pairs,
    pub actions: Seq<Name>,
    pub span: Span,
}

impl Drop for Transition {
    fn drop(self) {
        let Transition {
            states: _,
            events: _,
            next: _,
            pairs: _,
            actions: _,
            span: _,
        } = self;
    }
}

/// The next state of a transition, where one is written.
pub enum NextState {
    Named(Name),
    /// `*`: the state that the machine is asked for.
    Asked(Span),
}

impl Drop for NextState {
    fn drop(self) {
        match self {
            NextState::Named(_) => {}
            NextState::Asked(_) => {}
        }
    }
}

/// One name, or at least one in braces.
pub enum Names {
    One(Name),
    Several(Seq<Name>, Span),
}

impl Drop for Names {
    fn drop(self) {
        match self {
            Names::One(_) => {}
            Names::Several(_, _) => {}
        }
    }
}

/// `kind * name pairs;`, in which the star may be left out.
pub struct Object {
    pub kind: TypeName,
    pub has_star: bool,
    pub name: Name,
    pub pairs: Pairs,
    pub span: Span,
}

impl Drop for Object {
    fn drop(self) {
        let Object {
            kind: _,
            has_star: _,
            name: _,
            pairs: _,
            span: _,
        } = self;
    }
}
