/// How histories of outcomes are written.
#[derive(Clone, Copy)]
pub enum HistoryForm {
    /// A line for each step.
    EachStep,
    /// Looks without a break in one line, a change in one with its look, and with each change and each frame what it was.
    Brief,
}
