/// What there is for each port, or none.
///
/// Memories that share their words among threads say with it what a seat on the words knows, for each port that the seat
/// holds. Only contracts speak of such values.
pub struct ByPort<H> {
    /// For IF1.
    pub if1: Option<H>,
    /// For IF2.
    pub if2: Option<H>,
    /// For the bus.
    pub bus: Option<H>,
}
