//! Selectors and conditions: each public call on small and on large inputs. A body that answers want of
//! memory meets every contract, and is refused by a test alone.
#![tactic(auto)]

#[cfg(test)]
mod lowering;
#[cfg(test)]
mod media;
#[cfg(test)]
mod selectors;
