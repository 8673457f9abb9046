//! What component values begin with, tests of them, and lists of them without white space at their ends (CSS Syntax 3,
//! section 5).
#![tactic(auto)]

mod copies;
mod tests;
mod trim;

pub use copies::copied;
pub use tests::{
    head_of, is_at_keyword, is_block_in, is_braces, is_comma, is_gap, is_ident, is_keyword,
    is_semicolon, is_string, is_token, place_of,
};
pub use trim::{trimmed, trimmed_end, trimmed_start};
