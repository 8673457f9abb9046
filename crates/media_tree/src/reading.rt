//! A condition that is read from left to right, sign by sign.

ghost use Rattle.media_tree.specs.Private.Readings.{on_and, on_not, on_or, on_within, step};
ghost use Rattle.std.specs.Prelude.{◌≡◌, ◌∷◌, [], IfOk};

use crate::sign::Sign;
use css_tokens::{List, OutOfMemory};
use std::alloc::Global;

/// How far a condition is read, and the conditions that were read.
#[derive(Drop)]
pub enum Reading<C> {
    /// Nothing is read.
    Begin,
    /// `not`
    Negative,
    /// `not` and a condition: nothing may follow.
    Negation(C),
    /// One condition.
    Lone(C),
    /// Two or more with `and` between them.
    AndRow(List<C>),
    /// Conditions, each with `and` behind it.
    AndDue(List<C>),
    /// Two or more with `or` between them.
    OrRow(List<C>),
    /// Conditions, each with `or` behind it.
    OrDue(List<C>),
    /// What stands there is no condition.
    Failed,
}

fn lone_list<C: Drop>(alloc: Global, condition: C) -> Result<List<C>, OutOfMemory>
    ensures { IfOk result (λ list. list ≡ condition ∷ []) }
{
    let mut list = List::new(alloc);
    list.push(condition)?;
    Ok(list)
}

/// What a condition makes of a reading.
fn on_within<C: Drop>(
    alloc: Global,
    reading: Reading<C>,
    condition: C,
) -> Result<Reading<C>, OutOfMemory>
    ensures { IfOk result (λ next. next ≡ on_within condition reading) }
{
    match reading {
        Reading::Begin => Ok(Reading::Lone(condition)),
        Reading::Negative => Ok(Reading::Negation(condition)),
        Reading::AndDue(mut list) => {
            list.push(condition)?;
            Ok(Reading::AndRow(list))
        }
        Reading::OrDue(mut list) => {
            list.push(condition)?;
            Ok(Reading::OrRow(list))
        }
        _ => Ok(Reading::Failed),
    }
}

/// What `not` makes of a reading.
fn on_not<C: Drop>(reading: Reading<C>) -> Reading<C>
    ensures { result ≡ on_not reading }
{
    match reading {
        Reading::Begin => Reading::Negative,
        _ => Reading::Failed,
    }
}

/// What `and` makes of a reading.
fn on_and<C: Drop>(alloc: Global, reading: Reading<C>) -> Result<Reading<C>, OutOfMemory>
    ensures { IfOk result (λ next. next ≡ on_and reading) }
{
    match reading {
        Reading::Lone(condition) => Ok(Reading::AndDue(lone_list(alloc, condition)?)),
        Reading::AndRow(list) => Ok(Reading::AndDue(list)),
        _ => Ok(Reading::Failed),
    }
}

/// What `or` makes of a reading.
fn on_or<C: Drop>(alloc: Global, reading: Reading<C>) -> Result<Reading<C>, OutOfMemory>
    ensures { IfOk result (λ next. next ≡ on_or reading) }
{
    match reading {
        Reading::Lone(condition) => Ok(Reading::OrDue(lone_list(alloc, condition)?)),
        Reading::OrRow(list) => Ok(Reading::OrDue(list)),
        _ => Ok(Reading::Failed),
    }
}

/// One more sign.
pub fn step<'a, C: Drop>(
    alloc: Global,
    reading: Reading<C>,
    sign: Sign<'a, C>,
) -> Result<Reading<C>, OutOfMemory>
    ensures { IfOk result (λ next. next ≡ step sign.entry reading) }
{
    match sign {
        Sign::Gap => Ok(reading),
        Sign::Not => Ok(on_not(reading)),
        Sign::And => on_and(alloc, reading),
        Sign::Or => on_or(alloc, reading),
        Sign::Within(condition) => on_within(alloc, reading, condition),
        Sign::Comma | Sign::Only | Sign::Name(_) | Sign::Other => Ok(Reading::Failed),
    }
}
