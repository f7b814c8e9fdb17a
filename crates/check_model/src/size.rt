/// How deep selection sets nest, and how many fields there are, with all spreads followed. Both are within
/// the limits of what is accepted.
#[derive(Clone, Copy, Debug, PartialEq, Eq)]
pub struct Size {
    pub depth: u32,
    pub fields: u32,
}
