//! Tokens and component values of CSS text (CSS Syntax 3), and the lists and texts that the other crates share.
#![tactic(auto)]

mod boxed;
mod class;
mod component;
mod component_reader;
mod content;
mod cursor;
pub mod examples;
mod front;
mod keyword;
mod kind;
mod laws;
mod list;
mod machine;
mod memory;
mod name;
mod pairing;
mod plain;
mod print;
mod reader;
mod text;
mod token;
mod value;

pub use boxed::Boxed;
pub use component::{Block, Component, copy_all};
pub use component_reader::ComponentReader;
pub use keyword::is_keyword;
pub use kind::Kind;
pub use laws::{
    closing_brackets_stand, components_or_fault, ids_spell, less_than_stays, names_spell,
    names_stay, numbers_part, numbers_stay, one_bracket_fault, one_reading, places_rise_in_a_text,
    some_pairing, some_reading, strings_spell, values_again, values_stand_by_relations,
    words_again, words_are_clean,
};
pub use list::List;
pub use memory::OutOfMemory;
pub use name::name_of;
pub use pairing::{ComponentFault, components, one_pairing};
pub use plain::is_plain_name;
pub use print::{plain_name, write_name, write_string};
pub use reader::{TokenFault, tokens};
pub use text::Text;
pub use token::Token;
pub use value::{is_gap, printed_again, write_value};
