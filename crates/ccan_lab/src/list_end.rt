use crate::lab_error::LabError;

/// How the printing of a list of outcomes ended.
#[derive(Clone, Copy)]
pub enum ListEnd {
    /// The list is whole.
    Whole,
    /// It was given up, for this reason: what is printed is its beginning.
    GivenUp(LabError),
}
