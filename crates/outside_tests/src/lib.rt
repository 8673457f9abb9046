//! Files and outputs, in memory and of the real folder: each public call on small and on large inputs. A body that answers
//! want of memory meets every contract, and is refused by a test alone.
#![tactic(auto)]

#[cfg(test)]
mod builders;
#[cfg(test)]
mod files;
#[cfg(test)]
mod folder;
#[cfg(test)]
mod outbox;
