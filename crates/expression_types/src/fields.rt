//! Fields.
ghost use Rattle.std.specs.Prelude.{◌≡◌, map};
ghost use Rattle.std.specs.Option.{option_copied, option_map};
ghost use Rattle.slicc_plan.specs.Prelude.{request_fields, first_named, member, member_name, built_in_field, field_declared, field_in, fields_scope, found_field};
ghost use Rattle.slicc_plan.specs.Buffers.{listed};
ghost use Rattle.slicc_plan.specs.ExpressionTypes.{field_of, request_field};
ghost use Rattle.declared_types.specs.Prelude.{meaning_in, named_of, scope_of, type_of, scope_at};
ghost use Rattle.body_types.specs.Prelude.{IsEnvironment, environment_of, found_of, typed_of, meaning_of, written_of};

use body_types::{Environment, Meaning, Typed, Written, told, value_of_type};
use call_types::plain;
use declared_types::{KnownType, NamedType, Scope, request_fields};
use slicc_ast::tree::{Member, Name};
use slicc_plan::{Broken, BuiltInType, Rule, earlier_of_two};

fn member_name(m: &Member) -> &Name
    ensures { result.now ≡ member_name m.now }
{
    match m {
        Member::Field { name, .. } | Member::Method { name, .. } => name,
        Member::Skipped(s) => &s.name,
    }
}

fn first_member<'a>(members: &'a [Member], text: &[u8]) -> Option<&'a Member>
    ensures { option_map member (option_copied result) ≡ first_named text.now (map member members.now) }
{
    for m in members {
        if member_name(m).text.as_slice() == text {
            return Some(m);
        }
    }
    None
}

// The number of the scope in which the types of a structure's fields are looked up.
fn field_scope<'a>(env: Environment<'_, 'a>, scope: Scope<'a>) -> usize
    requires { IsEnvironment env }
    ensures { scope_at env.entry.scopes.now.trees.now result ≡ fields_scope env.entry.lines.machine.now (scope_of scope.entry) }
{
    match scope {
        Scope::Everywhere => 0,
        Scope::Within(_) => env.scope,
    }
}

fn field_among(fields: &[NamedType], text: &[u8]) -> Option<BuiltInType>
    ensures { result ≡ meaning_in (map named_of fields.now) text.now }
{
    for f in fields {
        if f.name.as_bytes() == text {
            return Some(f.meaning);
        }
    }
    None
}

fn request_field(text: &[u8]) -> Option<BuiltInType>
    ensures { result ≡ meaning_in request_fields text.now }
{
    field_among(request_fields(), text)
}

fn built_in_field<'a>(b: BuiltInType, text: &[u8]) -> Option<Meaning<'a>>
    ensures { option_map meaning_of result ≡ built_in_field b text.now }
{
    match b {
        BuiltInType::Request => match request_field(text) {
            None => None,
            Some(t) => Some(Meaning::Value(KnownType::BuiltIn(t))),
        },
        _ => None,
    }
}

// The field of this name in a structure.
fn structure_field<'a>(
    env: Environment<'_, 'a>,
    scope: Scope<'a>,
    members: &[Member],
    text: &[u8],
) -> Option<Meaning<'a>>
    requires { IsEnvironment env }
    ensures { option_map meaning_of result ≡ field_declared env.entry.scopes.now.trees.now env.entry.lines.machine.now (fields_scope env.entry.lines.machine.now (scope_of scope.entry)) (first_named text.now (map member members.now)) }
{
    match first_member(members, text) {
        Some(Member::Field { kind, .. }) => {
            let t = env
                .scopes
                .type_in(field_scope(env, scope), kind.text.as_slice());
            Some(value_of_type(env.lines, t))
        }
        _ => None,
    }
}

// The field of this name in a type.
fn field_in<'a>(env: Environment<'_, 'a>, t: KnownType<'a>, text: &[u8]) -> Option<Meaning<'a>>
    requires { IsEnvironment env }
    ensures { option_map meaning_of result ≡ field_in env.entry.scopes.now.trees.now env.entry.lines.machine.now (type_of t.entry) text.now }
{
    match t {
        KnownType::BuiltIn(b) => built_in_field(b, text),
        KnownType::Enumeration(..) | KnownType::States(..) => None,
        KnownType::Structure(scope, s) => structure_field(env, scope, &s.members, text),
    }
}

// A field that stands for this, if it is there, of what was found to be broken before.
fn found_field<'a>(
    written: Written,
    broken: Option<Broken>,
    n: &Name,
    meaning: Option<Meaning<'a>>,
) -> Typed<'a>
    ensures { found_of (typed_of result) ≡ found_of (found_field (written_of written) (listed broken) n.now (option_map meaning_of meaning.entry)) }
{
    match meaning {
        None => {
            let first = earlier_of_two(broken, Some(told(Rule::NotThere, n.span)));
            plain(Meaning::Unknown, first)
        }
        Some(meaning) => Typed {
            meaning,
            written,
            broken,
        },
    }
}

/// The field of this name of that.
pub fn field_of<'a>(env: Environment<'_, 'a>, on: Typed<'a>, n: &Name) -> Typed<'a>
    requires { IsEnvironment env }
    ensures { found_of (typed_of result) ≡ found_of (field_of (environment_of env.entry) (listed on.entry.broken) n.now (meaning_of on.entry.meaning)) }
{
    let text = n.text.as_slice();
    match on.meaning {
        Meaning::Value(t) | Meaning::Outgoing(t) => {
            found_field(Written::Field, on.broken, n, field_in(env, t, text))
        }
        Meaning::Incoming(t) => {
            found_field(Written::NoPlace, on.broken, n, field_in(env, t, text))
        }
        Meaning::Unknown | Meaning::NewLine(_) => plain(Meaning::Unknown, on.broken),
        _ => found_field(Written::NoPlace, on.broken, n, None),
    }
}
