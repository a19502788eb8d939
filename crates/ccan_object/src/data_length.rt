ghost use Rattle.std.specs.Prelude.{◌≡◌, ◌≤◌, ◌↔◌, IsSome, IfSome};
ghost use Rattle.ccan_object.specs.Bits.{part};
ghost use Rattle.ccan_object.specs.DataLength.{byte_count};

use std::marker::Model;

/// A data length code, 0 to 15: the number of data bytes; 9 to 15 mean 8 too. Contracts see the code.
#[derive(Clone, Copy, PartialEq, Eq, PartialOrd, Ord, Hash, Default, Debug)]
pub struct DataLength {
    code: u8,
}

impl Model for DataLength {
    ghost use Rattle.std.specs.Prelude.{ℕ, ◌≤◌};

    ghost Value = { ℕ };

    ghost view = { λ a. a.code };

    ghost invariant = { λ a. a.code ≤ 15 };

    ghost inverse = { λ n. record { code = n } };
}

impl DataLength {
    /// The length of this code, if it is at most 15.
    pub fn new(code: u8) -> Option<DataLength>
        ensures known { IsSome result ↔ (code ≤ 15) }
        ensures code { IfSome result (λ length. length ≡ code) }
    {
        if code <= 15 {
            Some(DataLength { code })
        } else {
            None
        }
    }

    /// The low four bits of a word.
    pub fn of(word: u16) -> DataLength
        ensures { result ≡ part word 0 4 }
    {
        DataLength {
            code: (word % 16) as u8,
        }
    }

    /// No bytes.
    pub fn zero() -> DataLength
        ensures { result ≡ 0 }
    {
        DataLength { code: 0 }
    }

    /// Its code.
    pub fn get(self) -> u8
        ensures code { result ≡ self }
        ensures within { result ≤ 15 }
    {
        self.code
    }

    /// How many data bytes it means, 0 to 8.
    pub fn byte_count(self) -> usize
        ensures count { result ≡ byte_count self }
        ensures within { result ≤ 8 }
    {
        usize::from(self.code.min(8))
    }
}
