/// One of something for each port.
#[derive(Clone, Copy, Drop)]
pub struct PerPort<T> {
    /// That of IF1.
    pub if1: T,
    /// That of IF2.
    pub if2: T,
    /// That of the bus.
    pub bus: T,
}
