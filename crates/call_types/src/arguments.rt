//! What is broken in the arguments of calls.
ghost use Rattle.std.specs.Prelude.{◌≡◌, ◌&&◌, nat_le, map, length, slice_get};
ghost use Rattle.std.specs.Option.{option_map};
ghost use Rattle.slicc_plan.specs.declared.broken.Rule.TheVariants.{WrongCount};
ghost use Rattle.slicc_plan.specs.Prelude.{broken_in, wrong_argument, wrong_arguments, wrong_line_type, type_named, unless, earlier_of_both, first_of};
ghost use Rattle.body_types.specs.Prelude.{IsEnvironment, environment_of, all_given_of, given_of, type_if, wanted_of};
ghost use Rattle.call_types.specs.Prelude.{wrong_at};

use body_types::{
    Environment, Given, Meaning, Wanted, told, type_named, unfit, unless, wrong_type_name,
};
use declared_types::KnownType;
use slicc_ast::tree::Name;
use slicc_plan::{Broken, Rule, Span, earlier_of_two};

/// The first that is broken in these.
#[tactic(auto, using(crate::proofs::Steps::broken_in_more))]
pub fn broken_in(given: &[Given]) -> Option<Broken>
    ensures { result ≡ first_of (broken_in (all_given_of given.now)) }
{
    let mut first = None;
    for g in given {
        first = earlier_of_two(first, g.typed.broken);
    }
    first
}

fn wrong_line_type<'a>(
    env: Environment<'_, 'a>,
    wanted: Option<KnownType<'a>>,
    made: &Name,
) -> Option<Broken>
    requires { IsEnvironment env }
    ensures { result ≡ first_of (wrong_line_type (environment_of env.entry) (type_if wanted.entry) made.now (type_named (environment_of env.entry) made.now.text)) }
{
    match type_named(env, made.text.as_slice()) {
        None => wrong_type_name(env, made.text.as_slice(), made.span),
        Some(t) => match wanted {
            None => Some(told(Rule::WrongType, made.span)),
            Some(w) => {
                unfit(
                    env.lines,
                    Wanted::OneOf(Some(w), None),
                    made.span,
                    Meaning::Value(t),
                )
            }
        },
    }
}

fn wrong_argument<'a>(env: Environment<'_, 'a>, wanted: Wanted<'a>, g: Given<'a>) -> Option<Broken>
    requires { IsEnvironment env }
    ensures { result ≡ first_of (wrong_argument (environment_of env.entry) (wanted_of wanted.entry) (given_of g.entry)) }
{
    match (wanted, g.typed.meaning) {
        (Wanted::NewLineOf(t), Meaning::NewLine(made)) => wrong_line_type(env, t, made),
        _ => {
            let then = unfit(env.lines, wanted, g.place, g.typed.meaning);
            earlier_of_two(g.typed.broken, then)
        }
    }
}

// What is broken in an argument where that is wanted, or where none is.
fn wrong_given<'a>(
    env: Environment<'_, 'a>,
    wanted: Option<Wanted<'a>>,
    g: Given<'a>,
) -> Option<Broken>
    requires { IsEnvironment env }
    ensures { result ≡ first_of (wrong_at (environment_of env.entry) (option_map wanted_of wanted.entry) (given_of g.entry)) }
{
    match wanted {
        None => g.typed.broken,
        Some(w) => wrong_argument(env, w, g),
    }
}

fn wanted_at<'a>(wanted: &[Wanted<'a>], number: usize) -> Option<Wanted<'a>>
    ensures { result ≡ slice_get wanted.now number }
{
    wanted.get(number).copied()
}

// The first that is broken in arguments where that is wanted, one after another.
fn wrong_arguments<'a>(
    env: Environment<'_, 'a>,
    wanted: &[Wanted<'a>],
    given: &[Given<'a>],
) -> Option<Broken>
    requires { IsEnvironment env }
    ensures { result ≡ first_of (wrong_arguments (environment_of env.entry) (map wanted_of wanted.now) (all_given_of given.now)) }
{
    let mut first = None;
    for (number, g) in given.iter().enumerate() {
        let then = wrong_given(env, wanted_at(wanted, number), *g);
        first = earlier_of_two(first, then);
    }
    first
}

/// The first of what was found before and of what is broken in arguments, where that is wanted and so many have to be there.
pub fn checked<'a>(
    env: Environment<'_, 'a>,
    at: Span,
    wanted: &[Wanted<'a>],
    least: usize,
    given: &[Given<'a>],
    first: Option<Broken>,
) -> Option<Broken>
    requires { IsEnvironment env }
    ensures { result ≡ earlier_of_both (earlier_of_both first (first_of (unless (nat_le least (length given.now) && nat_le (length given.now) (length wanted.now)) WrongCount at))) (first_of (wrong_arguments (environment_of env.entry) (map wanted_of wanted.now) (all_given_of given.now))) }
{
    let counted = earlier_of_two(first, wrong_count(at, least, wanted.len(), given.len()));
    earlier_of_two(counted, wrong_arguments(env, wanted, given))
}

// What is told of a call with so many arguments that takes from `least` to `most`.
fn wrong_count(at: Span, least: usize, most: usize, given: usize) -> Option<Broken>
    ensures { result ≡ first_of (unless (nat_le least given && nat_le given most) WrongCount at) }
{
    unless(least <= given && given <= most, Rule::WrongCount, at)
}
