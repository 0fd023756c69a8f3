/// Where an id stands: at a node, or in the pool of one. A node is told by how many came into the
/// rows before it, which never changes.
#[derive(Clone, Copy)]
pub enum Spot {
    OfNode { node: usize },
    InPool { home: usize, place: usize },
}
