//! What is known of an address and a node.

/// What is known of an address and a node.
#[derive(Clone, Copy, Debug, PartialEq, Eq)]
pub enum Told {
    /// The address is a member, under every choice.
    In,
    /// The address is no member, under any choice.
    Out,
    /// Nothing: a symbol that is needed has no value, or a descriptor that is needed has an address that isn't strictly
    /// between -2^62 and 2^62.
    Open,
}
