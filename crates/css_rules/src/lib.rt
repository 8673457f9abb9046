//! Style sheets: selectors, declarations, rules and at-rules, read from component values (CSS Syntax 3, section 5; Selectors 4;
//! Conditional Rules 3).
#![tactic(auto)]

mod at_rule;
mod cuts;
mod declaration;
pub mod examples;
mod first_law;
mod head;
mod parts;
mod places_law;
mod plain_law;
mod reader;
mod reading_law;
mod refusal;
mod rules;
mod sheet;
mod sheet_builder;
mod sheet_laws;
mod standing_law;
mod waiting;
mod within_law;

pub use at_rule::{AtKeyword, AtRule};
pub use first_law::{the_first_fault_is_named, the_first_refusal_is_named};
pub use places_law::places_do_not_matter;
pub use plain_law::sheets_are_plain;
pub use reader::RuleFault;
pub use reading_law::{sheets_are_read_rule_by_rule, sheets_have_readings_or_refusals};
pub use refusal::{Cause, Refusal, Sought};
pub use sheet::read_sheet;
pub use sheet_builder::SheetBuilder;
pub use sheet_laws::{sheets_are_printable, sheets_are_read_again};
pub use sheet_types::{
    Declaration, Group, GroupCondition, Import, Item, LayerName, Passed, PassedKind, Sheet, Style,
    bare_items_say, passed_rules_say_their_texts,
};
pub use standing_law::values_stand;
pub use within_law::refusals_stand_within;
