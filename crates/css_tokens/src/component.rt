ghost use Rattle.std.specs.Prelude.{◌≡◌, IfOk};

use crate::{Boxed, List, OutOfMemory, Token};
use std::alloc::Global;

/// A component value (CSS Syntax 3, section 5).
#[derive(Debug, Drop)]
#[cycle(component)]
pub enum Component<'a> {
    /// A token that opens and closes nothing.
    Single(Token<'a>),
    /// A token that opens, what it holds, and the place of the token that closes it.
    Block(Boxed<Block<'a>>),
}

/// A block or a function: all between an opening token and the closing token that matches it.
#[derive(Debug, Drop)]
#[cycle(component)]
pub struct Block<'a> {
    /// The opening token: `(`, `[`, `{` or a Function.
    pub opening: Token<'a>,
    /// What stands in the block.
    pub items: List<Component<'a>>,
    /// The place of the closing token, in bytes of the source.
    pub close: u32,
}

impl<'a> Component<'a> {
    /// The same component again, over the same source.
    #[cycle(copies)]
    pub fn copy(&self, alloc: Global) -> Result<Component<'a>, OutOfMemory>
        ensures { IfOk result (λ copy. copy ≡ self.now) }
    {
        match self {
            Component::Single(token) => Ok(Component::Single(token.copy())),
            Component::Block(block) => {
                let copy = block.get().copy(alloc)?;
                Ok(Component::Block(Boxed::new(alloc, copy)?))
            }
        }
    }
}

impl<'a> Block<'a> {
    /// The same block again, over the same source.
    #[cycle(copies)]
    pub fn copy(&self, alloc: Global) -> Result<Block<'a>, OutOfMemory>
        ensures { IfOk result (λ copy. copy ≡ self.now) }
    {
        let items = copy_all(alloc, self.items.as_slice())?;
        Ok(Block {
            opening: self.opening.copy(),
            items,
            close: self.close,
        })
    }
}

/// The same components again, over the same source.
#[cycle(copies)]
pub fn copy_all<'a>(
    alloc: Global,
    components: &[Component<'a>],
) -> Result<List<Component<'a>>, OutOfMemory>
    ensures { IfOk result (λ copies. copies ≡ components.now) }
{
    let mut copies = List::with_capacity(alloc, components.len())?;
    for component in components {
        copies.push(component.copy(alloc)?)?;
    }
    Ok(copies)
}
