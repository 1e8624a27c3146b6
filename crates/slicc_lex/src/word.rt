ghost use Rattle.std.specs.Prelude.{◌≡◌, ◌≢◌, MatchOption, find};
ghost use Rattle.std.specs.Str.{bytes_eq};
ghost use Rattle.slicc_ast.specs.declared.tree.token.Word.{Word};
ghost use Rattle.slicc_lex.specs.Prelude.{word_bytes};

use crate::Word;

/// The reserved words.
const WORDS: [Word; 29] = [
    Word::Protocol,
    Word::Include,
    Word::Machine,
    Word::Enumeration,
    Word::StateDeclaration,
    Word::Structure,
    Word::InPort,
    Word::OutPort,
    Word::Action,
    Word::Transition,
    Word::Peek,
    Word::Enqueue,
    Word::StallAndWait,
    Word::CheckAllocate,
    Word::If,
    Word::Else,
    Word::Return,
    Word::True,
    Word::False,
    Word::Ood,
    Word::New,
    Word::IsValid,
    Word::IsInvalid,
    Word::StaticCast,
    Word::Error,
    Word::Assert,
    Word::Dprintf,
    Word::AppendTransitionComment,
    Word::While,
];

/// The word as it is written.
fn text_of(word: Word) -> &'static str
    ensures { result.now ≡ word_bytes word }
{
    match word {
        Word::Protocol => "protocol",
        Word::Include => "include",
        Word::Machine => "machine",
        Word::Enumeration => "enumeration",
        Word::StateDeclaration => "state_declaration",
        Word::Structure => "structure",
        Word::InPort => "in_port",
        Word::OutPort => "out_port",
        Word::Action => "action",
        Word::Transition => "transition",
        Word::Peek => "peek",
        Word::Enqueue => "enqueue",
        Word::StallAndWait => "stall_and_wait",
        Word::CheckAllocate => "check_allocate",
        Word::If => "if",
        Word::Else => "else",
        Word::Return => "return",
        Word::True => "true",
        Word::False => "false",
        Word::Ood => "OOD",
        Word::New => "new",
        Word::IsValid => "is_valid",
        Word::IsInvalid => "is_invalid",
        Word::StaticCast => "static_cast",
        Word::Error => "error",
        Word::Assert => "assert",
        Word::Dprintf => "DPRINTF",
        Word::AppendTransitionComment => "APPEND_TRANSITION_COMMENT",
        Word::While => "while",
    }
}

/// The first of the words that is written so.
fn first_of(words: &[Word], text: &[u8]) -> Option<Word>
    ensures { result ≡ find (λ word. bytes_eq text.now (word_bytes word)) words.now }
{
    for word in words {
        if text == text_of(*word).as_bytes() {
            return Some(*word);
        }
    }
    None
}

/// The reserved word that a text is, if it is one.
pub fn reserved(text: &[u8]) -> Option<Word>
    ensures { MatchOption result ((word : Word) → text.now ≢ word_bytes word) (λ word. text.now ≡ word_bytes word) }
{
    first_of(&WORDS, text)
}
