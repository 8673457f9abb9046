//! Graphs of files: each public call on small and on large inputs. A body that answers want of memory meets every contract, and
//! is refused by a test alone.
#![tactic(auto)]

#[cfg(test)]
mod graphs;
#[cfg(test)]
mod lines;
#[cfg(test)]
mod numbers;
