//! What is on a CAN bus while one frame is sent, and what it is to each of several members: controllers and plain nodes. Pure: it
//! stores nothing, and knows members by what they do on the bus.
//!
//! ```text
//!   at the start of a frame                         at its end
//!   members --decide--> wire: who sends what  --decide_again, with what the members found--> wire
//!                                                   wire.event(place, member): to each member, what its registers count and show
//! ```
//!
//! `decide` alone is a whole round, if nothing happens to the members between the start and the end of the frame.
//!
//! A member is its `Role`, the frame that it starts, and the error that it finds by itself. What another member's error flag is
//! to it follows from where that flag begins: a flag of dominant bits in the stuffed part of the frame makes a recessive bit of
//! the sender dominant (LEC 4, bit 1) and six equal bits for a listener (LEC 1, stuff). One after the ACK slot is a wrong bit
//! in a field of fixed form for both (LEC 2, form). The error flags of error passive members are of recessive bits. Those of a
//! listener are seen by nobody, and those of a frame's only sender break the stuff rule.
//!
//! Rounds by hand, after CAN Specification 2.0; `+` sends, `-` listens, and an error is one that the member finds by itself:
//!
//! | members | the wire | and to them |
//! |---|---|---|
//! | active +, active - | `Carried` | sent; received |
//! | active +, active - with an error of its check sequence | `Unheard`, flagged | LEC 3, TEC plus 8; LEC 6 |
//! | passive +, active - with that error | `Unheard`, flagged | LEC 3, TEC plus 8: it sees a dominant flag; LEC 6 |
//! | active +, active - with that error, active - | `Flagged` | LEC 2; LEC 6; LEC 2 |
//! | passive +, nobody else but a silent - | `Unheard`, not flagged | LEC 3, TEC stays; received |
//! | active +, nobody else but a silent - | `Unheard`, flagged by its sender | LEC 3, TEC plus 8; LEC 2 |
//! | active +, passive - with a stuff error, active - | `Carried` | sent; LEC 1; received |
//! | active +, active - with a stuff error, active - | `Broken` | LEC 4; LEC 1; LEC 1 |
//! | passive + with a bit error, active - | `Broken` | LEC 5; LEC 1: six recessive bits |
//! | passive + with a form error, active - | `Carried` | LEC 2; received |
//! | two active + of equal arbitration and other data, active - | `Collided` | LEC 4; LEC 4; LEC 1 |
//! | active +, passive + that drops out at its first recessive bit, active - | `Carried` | sent; LEC 4; received |
//! | passive +, active + with a recessive bit first, active - | `Collided` | LEC 4; LEC 4; LEC 1 |
//! | two active + of the same frame, active - | `Carried` | sent; sent; received |
//! | two active + of the same frame, nobody else | `Unheard`, flagged by both | LEC 3; LEC 3 |
//! | looped +, active - | `Carried` | sent to itself; received |
//! | looped +, active - with a stuff error, active - | `Broken` | sent to itself; LEC 1; LEC 1 |
//! | looped +, active - with an error of its check sequence | `Unheard`, flagged | sent to itself; LEC 6 |
//! | looped +, nobody else but a silent - | `Unheard`, not flagged | sent to itself; received |
//! | looped +, active + whose frame it precedes | `Carried` | sent to itself; received |
//! | looped +, active + whose frame precedes it, active - | `Collided` | sent to itself; LEC 4; LEC 1 |
//! | two looped + of different frames, active - | `Collided` | both sent to themselves; LEC 1 |
//! | active +, looped - | `Unheard`, flagged by its sender | LEC 3, TEC plus 8; nothing |
//!
//! What the model leaves out:
//!
//! - A member in loop back mode (without Silent) starts its frame when the others start theirs; a part starts it at any time, also
//!   into another's frame. If neither of two different frames stops, none goes on, though by the bits one may rarely cover
//!   the other; and what is left of the frame in loop back mode disturbs nothing after an error flag.
//! - An error counts 1 at each receiver. Rule 2 of fault confinement adds 8 if a dominant bit comes after its own flag.
//! - A stuff error in the arbitration field of a sender counts 8 as others do: the second exception of rule 3 does not occur.
//! - There are no overload frames, and an error passive sender does not wait before its next frame.
#![tactic(auto)]

pub mod decision;
mod end;
mod event;
pub mod flaw;
pub mod laws;
pub mod member;
mod packed;
pub mod role;
mod sign;
pub mod start;
pub mod winner;
pub mod wire;

pub use decision::{decide, decide_again};
pub use flaw::Flaw;
pub use member::{MOST_MEMBERS, Member, Places};
pub use role::Role;
pub use start::Start;
pub use winner::{Part, Winner};
pub use wire::Wire;
