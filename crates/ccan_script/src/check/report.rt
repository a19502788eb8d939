use crate::script_error::ScriptError;

/// What is said of a place of a script.
#[derive(Drop)]
pub struct Remark {
    /// How many bytes of the text come before the place.
    pub offset: usize,
    /// The path in the script, the value there, and what is wrong with it or would be right.
    pub text: String,
}

/// A fault of a script.
#[derive(Drop)]
pub struct Fault {
    /// The fault as reading the script reports it.
    pub error: ScriptError,
    pub remark: Remark,
}

/// All that is said of a script.
#[derive(Drop)]
pub struct Report {
    /// What keeps it from being a script, in the order of the checks.
    pub faults: Vec<Fault>,
    /// What is accepted, but rarely meant.
    pub warnings: Vec<Remark>,
}
