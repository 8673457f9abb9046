//! Work on each item of a list, with the answers in order.
#![tactic(auto)]

mod gate;
mod pool;

pub use gate::{Gate, NoGate};
pub use pool::map_in_order;
