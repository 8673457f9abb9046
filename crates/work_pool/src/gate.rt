/// A place at which work can be held. It changes no answer.
pub trait Gate {
    /// Called as an item of that number is begun.
    fn at(&self, index: u32);
}

/// The gate that holds nothing.
#[derive(Clone, Copy, Debug)]
pub struct NoGate;

impl Gate for NoGate {
    fn at(&self, _index: u32) {}
}
