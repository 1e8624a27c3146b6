//! What the names of types stand for in each scope of a protocol, and the rules of declarations that need to know it. What is there in
//! every protocol without a declaration, that is types, their members and calls, is here by its name.
#![tactic(auto)]

mod attributes;
mod built_in_types;
mod call;
mod calls;
mod declarations;
mod lent;
mod lines;
mod lists;
mod names;
mod scopes;
mod table;
mod tables;
mod types;
mod words;

pub use attributes::{
    Attribute, attribute_in, first_attribute, has_attribute, is_external, is_word,
};
pub use built_in_types::{
    NamedType, Nature, built_in_type, fixed_members, is_table, nature_of, request_fields,
};
pub use call::{Allowed, Answer, Argument, Call, Change, Receiver};
pub use calls::{built_in_calls, is_call_name};
pub use declarations::{first_named, type_in};
pub use lent::{Declared, KnownType, Scope};
pub use lines::{LineSort, first_line};
pub use lists::{declared, machine_list};
pub use names::Named;
pub use scopes::Scopes;
pub use table::name_of;
pub use types::{declared_type, table_named};
pub use words::{after_prefix, before_suffix};
