use std::fmt;

/// A field of a saved chip's text.
#[derive(Clone, Copy, PartialEq, Eq, Debug)]
pub enum Field {
    /// How many objects there are, at byte 16.
    Objects,
    /// The layout of the registers, at byte 24.
    Map,
    /// The tries, at byte 32.
    Tries,
    /// How many other nodes there are, at byte 40.
    Others,
    /// The controller's word, at byte 48.
    Controller,
    /// The registers of IF1, from byte 56 on.
    If1,
    /// The registers of IF2, from byte 96 on.
    If2,
    /// The record of the object of this number, 1 to 64.
    Object(u8),
    /// The records of the objects that the chip does not have.
    Unused,
}

impl fmt::Display for Field {
    fn fmt<W: fmt::Write>(&self, f: &mut fmt::Formatter<W>) -> fmt::Result {
        match self {
            Field::Objects => f.write_str("the number of objects"),
            Field::Map => f.write_str("the layout"),
            Field::Tries => f.write_str("the tries"),
            Field::Others => f.write_str("the number of other nodes"),
            Field::Controller => f.write_str("the controller"),
            Field::If1 => f.write_str("IF1"),
            Field::If2 => f.write_str("IF2"),
            Field::Object(number) => write!(f, "object {number}"),
            Field::Unused => f.write_str("an object that the chip does not have"),
        }
    }
}
