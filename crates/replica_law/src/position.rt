//! The position of a replica.

/// One life of a node. A node that restarts takes an incarnation that it never had.
#[derive(Clone, Copy, Debug, PartialEq, Eq)]
pub struct Life {
    /// The number of the node.
    pub node: u32,
    /// The number of this life among those of the node.
    pub incarnation: u64,
}

/// A view: the life that is its primary, and a number that this life gives to one view alone.
#[derive(Clone, Copy, Debug, PartialEq, Eq)]
pub struct View {
    /// The primary of the view.
    pub primary: Life,
    /// The number of the view among those that its primary starts.
    pub number: u64,
}

/// A position: a view, and how many entries of the view led to it.
#[derive(Clone, Copy, Debug, PartialEq, Eq)]
pub struct Position {
    /// The view.
    pub view: View,
    /// The operation number: 0 where the view starts, n after its entry n.
    pub op: u64,
}
