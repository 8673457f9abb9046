use css_tokens::{Component, List, Text};

/// A declaration that goes by no flow of a text: a physical property and its value (CSS Logical 1, section 4).
#[derive(Debug, Drop)]
pub struct Physical<'a> {
    /// The property's name. It is in lower case where it is no custom one.
    pub name: Text<'a>,
    pub value: List<Component<'a>>,
}
