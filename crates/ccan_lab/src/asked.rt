/// What is asked about the outcomes of a script.
#[derive(Clone, Copy)]
pub enum Asked<'a> {
    /// What each line may be.
    Summary,
    /// Each outcome with a history that leads to it.
    All,
    /// The same as JSON.
    Json,
    /// Whether an outcome has a line that begins so for each LINE that is given.
    Can,
    /// Whether no outcome has a line that begins so for each LINE that is given.
    Never,
    /// What of the outcomes can be told apart by the lines and objects of these names, which have commas between them.
    Observed(&'a str),
    /// The same, of the list of all outcomes: each with its number there.
    AllObserved(&'a str),
}
