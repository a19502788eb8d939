/// What a line comes to: its end, or where the port then is in it.
#[derive(Clone, Copy, PartialEq, Eq, Debug)]
pub enum Course<P, E> {
    /// The line ends.
    Ended(E),
    /// It goes on.
    At(P),
}
