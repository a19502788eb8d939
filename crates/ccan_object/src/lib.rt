//! Message objects of the C_CAN message RAM: their records, the interface registers that show them, what a transfer
//! makes of both, and how a record is packed into words.
//!
//! A host doesn't reach into the message RAM. It sees one object at a time through an interface register set, which is a
//! window on a record: nine registers of 16 bits, the message buffer, show the fields of a [`Record`] at fixed places.
//! The tenth, the Command Mask register, is no part of that buffer; it says which groups of fields the next transfer
//! moves, and which way. So a register set is kept as what it shows, a record and a command ([`Iface`]), and a transfer is
//! a function of records: a write makes the object [`merged`] from buffer and object, a read fills the buffer from the
//! object and leaves the object [`cleared`].
//!
//! ```text
//!  bit            15      14      13      12     11    10    9      8       7    6 5 4  3 2 1 0
//!  Arbitration 2  MsgVal  Xtd     Dir     ID28 ....................................... ID16
//!  Arbitration 1  ID15 ............................................................... ID0
//!  Mask 2         MXtd    MDir    -       Msk28 ...................................... Msk16
//!  Mask 1         Msk15 .............................................................. Msk0
//!  Msg Control    NewDat  MsgLst  IntPnd  UMask  TxIE  RxIE  RmtEn  TxRqst  EoB  - - -  DLC
//!  Data A1        byte 1 ...................................        byte 0 ..............
//!  Data A2        byte 3 ...................................        byte 2 ..............
//!  Data B1        byte 5 ...................................        byte 4 ..............
//!  Data B2        byte 7 ...................................        byte 6 ..............
//! ```
//!
//! Reserved bits (`-`) read as 0, and writes to them are dropped.
#![tactic(auto)]

mod bits;
pub mod command;
pub mod data_length;
pub mod group;
pub mod identifier;
pub mod interface;
pub mod laws;
pub mod number;
pub mod packing;
pub mod profile;
pub mod record;
pub mod register;
pub mod transfer;

pub use command::CommandMask;
pub use data_length::DataLength;
pub use group::Group;
pub use identifier::Identifier;
pub use interface::Iface;
pub use number::ObjectNo;
pub use packing::{pack, unpack};
pub use profile::{MOST_OBJECTS, Profile};
pub use record::Record;
pub use register::Reg;
pub use transfer::{cleared, merged};
