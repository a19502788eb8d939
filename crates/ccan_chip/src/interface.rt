/// One of the two interface register sets (User's Manual, section 3.3).
#[derive(Clone, Copy, PartialEq, Eq, PartialOrd, Ord, Hash, Debug)]
pub enum Interface {
    /// IF1.
    One,
    /// IF2.
    Two,
}
