/// How specific a selector is: its ids; its classes, attributes and pseudo-classes; its type names and pseudo-elements.
/// They are compared in this order. Each is counted up to 65,536 and no further (Selectors 4, section 17).
#[derive(Clone, Copy, Debug, PartialEq, Eq, PartialOrd, Ord)]
pub struct Specificity {
    pub a: u32,
    pub b: u32,
    pub c: u32,
}
