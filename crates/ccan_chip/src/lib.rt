//! A port of a chip ([`ChipPort`]) with the layout of its registers ([`Map`]), and the bus of a chip whose controller's registers
//! are beside its objects, where every port reads and writes them at any time.
//!
//! A `ccan_bus::Bus` keeps the controller's error counters and its Status register itself, so only the thread that runs the
//! rounds can reach them. On the part a host clears Init, reads Status and sets loop back mode while frames pass. Here these
//! registers are one word of a `ccan_endless::EndlessRam`, and a [`ChipBus`] keeps the rest: the other nodes, and what is about
//! to be sent. Each round looks at the word first, and changes it last:
//!
//! ```text
//!   hosts                  the controller's word              a round
//!                                 |
//!   write Init, SIE, ... ------>  |  ---- look ------------>  has left the bus? takes part? loop back? counters?
//!   read and clear Status <---->  |                           load, decision, finish or store: at the objects
//!   set and clear Init   ------>  |  <--- event ------------  TEC or REC, TxOk, RxOk, LEC, bus off
//!                                 |
//! ```
//!
//! A load by itself is the look and the steps of a load, and no event.
//!
//! If a host sets Init, the controller has left the bus. The word remembers it (`has_left`), even if Init is 0 again before the
//! next look. A load or a round that finds this drops what was loaded, whose object stays requested. If Init is 0 again, it joins
//! the bus by a change of the word of its own, and then looks once more (`specs/Arrival.antt`).
//!
//! Whoever is woken by the event finds the object done, unless that step was refused. A host may change anything of the word
//! between the two: when the event is made, it is made to the word as it is then, and TEC and REC are still those of the look,
//! since only rounds change them ([`laws`]). If each of its tries was lost to a change of another port, it is not made, and the
//! report has it, for the caller to make. All of it is in the one history of the chip: the last look, the steps at the objects,
//! and the event, in that order, with no other step of the bus at the controller in between (`specs/Round.antt`).
//!
//! # The registers by their offsets
//!
//! A driver finds a register by its offset from where the chip begins, and there are three layouts in which it does
//! ([`Map`]). Each has the same registers of 16 bits ([`Register`]), and `Dcan` has the upper half of Control too, at 0x02:
//!
//! ```text
//!                     Narrow          Wide            Dcan
//!  general            0x00 .. 0x0c    0x00 .. 0x18    0x00 .. 0x14
//!  flags TxRqst       0x80 .. 0x86    0x100 .. 0x10c  0x88 .. 0x8e
//!        NewDat       0x90 .. 0x96    0x120 .. 0x12c  0x9c .. 0xa2
//!        IntPnd       0xa0 .. 0xa6    0x140 .. 0x14c  0xb0 .. 0xb6
//!        MsgVal       0xb0 .. 0xb6    0x160 .. 0x16c  0xc4 .. 0xca
//!  IF1                0x10 .. 0x24    0x20 .. 0x48    0x100 .. 0x116
//!  IF2                0x40 .. 0x54    0x80 .. 0xa8    0x120 .. 0x136
//! ```
//!
//! What is in a register is not said here: [`Map::register_at`] answers which register an offset is, and everything
//! above speaks only of registers.
#![tactic(auto)]

mod arrival;
mod chip_bus;
mod chip_port;
mod chip_report;
mod dcan;
pub mod flag_part;
mod flags;
pub mod interface;
pub mod laws;
pub mod map;
pub mod map_laws;
mod narrow;
mod objects;
mod own_event;
mod port_settings;
pub mod register;

pub use arrival::{arrive, own_tries, takes_part};
pub use chip_bus::ChipBus;
pub use chip_port::ChipPort;
pub use chip_report::ChipReport;
pub use flag_part::FlagPart;
pub use interface::Interface;
pub use map::Map;
pub use objects::{Earlier, Lent, Objects};
pub use own_event::OwnEvent;
pub use port_settings::PortSettings;
pub use register::Register;
