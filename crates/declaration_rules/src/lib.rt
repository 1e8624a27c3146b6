//! Rules that declarations keep: known types, the types of fields, values of attributes, and built-in names.
#![tactic(auto)]

mod field_rules;
mod members;
mod numbers;
mod own_values;
mod prototypes;
mod rule;
mod unknown_types;
mod values;

pub use field_rules::nature_in;
pub use members::{default_part, has_member};
pub use numbers::number_value;
pub use rule::{
    DeclarationRule, earlier_at, first_in_scopes, judge_field_types, judge_prototypes,
    judge_type_names, judge_values,
};
pub use values::{is_built_in, judge_literal, judge_object_attributes};
