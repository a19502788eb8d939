//! A memory that loses tries on purpose, for tests.
//!
//! A plain memory never loses a try, and a shared one loses them whenever its threads happen to. Here the bus port calls, and a
//! list says what the host at IF1 writes meanwhile: its next transfer in each try of a change. One at the same object comes after
//! the look, and the try is lost; one at another object comes before the look, and the try goes on. So a store at object 5 goes
//! with a list that has a write at 5 and then one at 3, if the record still accepts the frame:
//!
//! ```text
//! bus    look 5                        look 5    store 5
//! IF1              write 5   write 3
//! ```
//!
//! Each write of IF1 is a look and a change. Clause `course` of `change` says all that a change adds, in its order.
//!
//! It meets `Access`, and each of its calls has the clauses of that trait too. So what is proved over `Access` holds for it, and
//! answers that only contention brings about can be shown by a call.
//!
//! Beside it are the handler's calls without their promises, for tests that make many of them.
#![tactic(auto)]

pub mod calls;
pub mod contended;
pub mod transfer;

pub use contended::Contended;
pub use transfer::Transfer;
