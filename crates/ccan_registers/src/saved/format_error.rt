use crate::saved::field::Field;
use thiserror::Error;

/// Why bytes are not the text of a saved chip. The name is looked at first, then the version, then the length, and then the
/// fields in their order.
#[derive(Clone, Copy, PartialEq, Eq, Debug, Error)]
pub enum FormatError {
    /// They are not as many as a saved chip has, 1672. The value is how many they are.
    #[error("a saved chip has 1672 bytes, and these are {0}")]
    Length(usize),
    /// They do not begin with the text `ccansave`.
    #[error("this is no saved chip")]
    Name,
    /// They are of this version of the format, which is not known here.
    #[error("version {0} of a saved chip is not known")]
    Version(u64),
    /// This field is out of its range, or has a 1 where a 0 is reserved.
    #[error("{0} is out of its range")]
    Range(Field),
}
