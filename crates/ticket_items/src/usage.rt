/// How a node uses a resource that it links (JDF 1.5, 3.9: the Usage of a resource link).
#[derive(Clone, Copy, PartialEq, Eq)]
pub enum Usage {
    /// The node needs the resource.
    Input,
    /// The node makes the resource.
    Output,
}
