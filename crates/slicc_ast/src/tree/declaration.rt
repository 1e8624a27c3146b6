use crate::tree::{Balanced, Block, Name, Span, TypeName};
use ruby_base::{Seq, Text};

/// The attributes of a declaration, each after a comma.
pub struct Pairs {
    pub items: Seq<Pair>,
    pub span: Span,
}

impl Drop for Pairs {
    fn drop(self) {
        let Pairs { items: _, span: _ } = self;
    }
}

pub enum Pair {
    /// `name=value`
    Named {
        name: Name,
        value: PairValue,
        span: Span,
    },
    /// A string that has no name.
    Bare(Text, Span),
}

impl Drop for Pair {
    fn drop(self) {
        match self {
            Pair::Named {
                name: _,
                value: _,
                span: _,
            } => {}
            Pair::Bare(_, _) => {}
        }
    }
}

pub enum PairValue {
    Quoted(Text),
    Number(i64),
    Name(Name),
}

impl Drop for PairValue {
    fn drop(self) {
        match self {
            PairValue::Quoted(_) => {}
            PairValue::Number(_) => {}
            PairValue::Name(_) => {}
        }
    }
}

/// `enumeration(name pairs) { members }`
pub struct Enumeration {
    pub name: Name,
    pub pairs: Pairs,
    pub members: Seq<Symbol>,
    pub span: Span,
}

impl Drop for Enumeration {
    fn drop(self) {
        let Enumeration {
            name: _,
            pairs: _,
            members: _,
            span: _,
        } = self;
    }
}

/// `name pairs;`, a member of an enumeration.
pub struct Symbol {
    pub name: Name,
    pub pairs: Pairs,
}

impl Drop for Symbol {
    fn drop(self) {
        let Symbol { name: _, pairs: _ } = self;
    }
}

/// `state_declaration(name pairs) { members }`
pub struct States {
    pub name: Name,
    pub pairs: Pairs,
    pub members: Seq<State>,
    pub span: Span,
}

impl Drop for States {
    fn drop(self) {
        let States {
            name: _,
            pairs: _,
            members: _,
            span: _,
        } = self;
    }
}

/// `name, owner:permission pairs;`, a state with its access permission, whose owner is `AccessPermission` in a protocol
/// that is right.
pub struct State {
    pub name: Name,
    pub owner: Name,
    pub permission: Name,
    pub pairs: Pairs,
}

impl Drop for State {
    fn drop(self) {
        let State {
            name: _,
            owner: _,
            permission: _,
            pairs: _,
        } = self;
    }
}

/// `structure(name pairs) { members }`
pub struct Structure {
    pub name: Name,
    pub pairs: Pairs,
    pub members: Seq<Member>,
    pub span: Span,
}

impl Drop for Structure {
    fn drop(self) {
        let Structure {
            name: _,
            pairs: _,
            members: _,
            span: _,
        } = self;
    }
}

pub enum Member {
    /// `kind name pairs;`
    Field {
        kind: TypeName,
        name: Name,
        pairs: Pairs,
        span: Span,
    },
    /// `kind name(formals) pairs;`
    Method {
        kind: TypeName,
        name: Name,
        formals: Formals,
        pairs: Pairs,
        span: Span,
    },
    Skipped(Skipped),
}

impl Drop for Member {
    fn drop(self) {
        match self {
            Member::Field {
                kind: _,
                name: _,
                pairs: _,
                span: _,
            } => {}
            Member::Method {
                kind: _,
                name: _,
                formals: _,
                pairs: _,
                span: _,
            } => {}
            Member::Skipped(_) => {}
        }
    }
}

pub enum Function {
    /// `kind name(formals) pairs body`, or a prototype, which has `;` in place of the body.
    Plain {
        kind: TypeName,
        name: Name,
        formals: Formals,
        pairs: Pairs,
        body: Option<Block>,
        span: Span,
    },
    Skipped(Skipped),
}

impl Drop for Function {
    fn drop(self) {
        match self {
            Function::Plain {
                kind: _,
                name: _,
                formals: _,
                pairs: _,
                body: _,
                span: _,
            } => {}
            Function::Skipped(_) => {}
        }
    }
}

/// `functionalRead` or `functionalWrite`, of which gem5 makes accesses outside of time: read, and not looked at.
pub struct Skipped {
    pub kind: TypeName,
    pub name: Name,
    pub arguments: Balanced,
    pub pairs: Pairs,
    pub body: Balanced,
    pub span: Span,
}

impl Drop for Skipped {
    fn drop(self) {
        let Skipped {
            kind: _,
            name: _,
            arguments: _,
            pairs: _,
            body: _,
            span: _,
        } = self;
    }
}

/// The formals of a function, none where nothing stands between its parentheses.
pub struct Formals {
    pub items: Seq<Formal>,
    pub span: Span,
}

impl Drop for Formals {
    fn drop(self) {
        let Formals { items: _, span: _ } = self;
    }
}

/// `kind * name`, in which the star and the name may be left out.
pub struct Formal {
    pub kind: TypeName,
    pub has_star: bool,
    pub name: Option<Name>,
    pub span: Span,
}

impl Drop for Formal {
    fn drop(self) {
        let Formal {
            kind: _,
            has_star: _,
            name: _,
            span: _,
        } = self;
    }
}
