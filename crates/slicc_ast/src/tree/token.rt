use ruby_base::Text;

/// What a token is, its place aside.
pub enum TokenKind {
    /// A name that is no reserved word: at most 128 bytes.
    Name(Text),
    /// At most 2^63 - 1, and never negative.
    Number(i64),
    /// A string, without its quotes.
    Quoted(Text),
    Word(Word),
    Sign(Sign),
    /// The end of the text, which stands after the last token.
    End,
}

impl Drop for TokenKind {
    fn drop(self) {
        match self {
            TokenKind::Name(_) => {}
            TokenKind::Number(_) => {}
            TokenKind::Quoted(_) => {}
            TokenKind::Word(_) => {}
            TokenKind::Sign(_) => {}
            TokenKind::End => {}
        }
    }
}

/// The reserved words.
#[derive(Clone, Copy, PartialEq, Eq)]
pub enum Word {
    Protocol,
    Include,
    Machine,
    Enumeration,
    StateDeclaration,
    Structure,
    InPort,
    OutPort,
    Action,
    Transition,
    Peek,
    Enqueue,
    StallAndWait,
    CheckAllocate,
    If,
    Else,
    Return,
    True,
    False,
    /// `OOD`, the reference to nothing.
    Ood,
    New,
    IsValid,
    IsInvalid,
    StaticCast,
    Error,
    Assert,
    /// `DPRINTF`
    Dprintf,
    /// `APPEND_TRANSITION_COMMENT`
    AppendTransitionComment,
    /// Reserved, though no form of the grammar has it.
    While,
}

/// The signs.
#[derive(Clone, Copy, PartialEq, Eq)]
pub enum Sign {
    OpenBrace,
    CloseBrace,
    OpenParenthesis,
    CloseParenthesis,
    OpenBracket,
    CloseBracket,
    Semicolon,
    Colon,
    Comma,
    Dot,
    /// `=`
    Equals,
    /// `:=`
    Assign,
    /// `==`
    Equal,
    /// `!=`
    Unequal,
    Less,
    Greater,
    LessOrEqual,
    GreaterOrEqual,
    Plus,
    Minus,
    Star,
    /// `!`
    Not,
    /// `&&`
    And,
    /// `||`
    Or,
}
