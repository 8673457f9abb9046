//! Tokens, components, names, values and tables: each public call on small and on large inputs. A body that answers want of
//! memory meets every contract, and is refused by a test alone.
#![tactic(auto)]

#[cfg(test)]
mod components;
#[cfg(test)]
mod names;
#[cfg(test)]
mod paths;
#[cfg(test)]
mod physical;
#[cfg(test)]
mod places;
#[cfg(test)]
mod pseudos;
#[cfg(test)]
mod tables;
#[cfg(test)]
mod tokens;
#[cfg(test)]
mod values;
#[cfg(test)]
mod work;
