//! Tables of names: which pseudo-classes and pseudo-elements (Selectors 3, sections 6.6 and 7) and which media features (Media
//! Queries 3, section 4) an older browser knows, which properties are logical, and which physical declarations each of these
//! stands for (CSS Logical 1, section 4).
#![tactic(auto)]

mod declarations;
pub mod examples;
mod feature;
mod laws;
mod logical;
mod lower;
mod mode;
mod property;
mod pseudo;
mod side;
mod value;

pub use declarations::Physical;
pub use feature::{is_old_feature, is_range_feature};
pub use laws::{
    modes_matter, old_properties_are_themselves, one_table, physical_properties_are_old,
};
pub use logical::{is_logical, is_split};
pub use lower::physical;
pub use mode::{Direction, Mode, Writing};
pub use pseudo::is_old_pseudo;
