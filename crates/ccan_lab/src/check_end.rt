/// What came of a check of a script.
#[derive(Clone, Copy, PartialEq, Eq)]
pub enum CheckEnd {
    /// Nothing is said of it.
    Clean,
    /// There are warnings and no faults.
    Warned,
    /// There are no faults, and the run does not print what is expected.
    Differs,
    /// There are faults.
    Faulty,
}

impl CheckEnd {
    ghost use Rattle.std.specs.Prelude.{◌≡◌};
    ghost use Rattle.ccan_lab.specs.CheckCommand.{check_status};

    /// The exit status: 8 if a run is not as expected, and 7 for warnings if they are asked for by `--strict`.
    pub fn status(self, is_strict: bool) -> u8
        ensures { result ≡ check_status is_strict self }
    {
        match self {
            CheckEnd::Faulty => 1,
            CheckEnd::Differs => 8,
            CheckEnd::Warned if is_strict => 7,
            CheckEnd::Warned | CheckEnd::Clean => 0,
        }
    }
}
