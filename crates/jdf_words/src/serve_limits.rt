/// What `serve` keeps to while it answers.
#[derive(Clone, Copy)]
pub struct ServeLimits {
    /// The longest time for a connection, in seconds, from 1 to 3,600; 5 where none is named.
    pub seconds: u64,
    /// How many connections are held at most, from 1 to 65,536; 1,024 where none is named.
    pub clients: u64,
    /// How many bytes a message has at most, from 1 to 1,073,741,824; 67,108,864 where none is
    /// named.
    pub body: u64,
    /// How many bytes what comes and the controllers that are kept in memory take at most
    /// together, from 1,048,576 to 1,099,511,627,776; 268,435,456 where none is named.
    pub memory: u64,
}
