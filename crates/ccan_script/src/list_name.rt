use std::fmt;

/// A part of a script that a refusal names.
#[derive(Clone, Copy, PartialEq, Eq, PartialOrd, Ord, Hash, Debug)]
pub enum ListName {
    /// The script itself.
    Top,
    /// The lines of IF1.
    If1,
    /// The lines of IF2.
    If2,
    /// The lines of the bus.
    Bus,
    /// The order in which the ports run.
    Order,
    /// The ports of which lines run before a race.
    Before,
}

impl fmt::Display for ListName {
    ghost use Rattle.std.specs.Prelude.{Some};
    ghost use Rattle.ccan_script.specs.ListName.{list_text};

    ghost output = { λ list. Some (list_text list) };

    fn fmt<W: fmt::Write>(&self, f: &mut fmt::Formatter<W>) -> fmt::Result {
        f.write_str(match self {
            ListName::Top => "top",
            ListName::If1 => "if1",
            ListName::If2 => "if2",
            ListName::Bus => "bus",
            ListName::Order => "order",
            ListName::Before => "before",
        })
    }
}
