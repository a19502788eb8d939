//! Which frames a message object accepts, what it stores of them, and what the start and the end of a transmission make
//! of it.
//!
//! Acceptance compares an object with a frame place by place. Both identifiers are in places 28 to 0, a standard one in
//! the upper eleven, and the object's mask picks the places that have to agree; without UMask it is every place. If
//! either identifier is a standard one, places 17 to 0 are not compared. Xtd is compared with the frame's width,
//! and Dir with its kind, each unless the mask leaves it out.
//!
//! ```text
//!   place       28 27 26 25 24 23 22 21 20 19 18   17 16 15 ... 1 0     beside them
//!   object id    0  0  1  0  0  1  0  0  0  1  1    -  -  -     - -      Xtd   Dir
//!   mask         1  1  1  1  1  1  1  1  1  1  0    -  -  -     - -      MXtd  MDir    with UMask 1, else all 1
//!   frame        0  0  1  0  0  1  0  0  0  1  0    -  -  -     - -      width kind
//!   agree        =  =  =  =  =  =  =  =  =  =  .    .  .  .     . .      accepted: place 18 isn't compared
//! ```
//!
//! An object whose MsgVal is 0, or that is locked (EoB 0 and NewDat 1), accepts nothing. All functions here are of
//! records and frames alone; the crates above say what the message handler does with them.
#![tactic(auto)]

pub mod accept;
pub mod frame;
pub mod frame_error;
pub mod laws;
pub mod send;
pub mod store;

pub use accept::accepts;
pub use frame::Frame;
pub use frame_error::FrameError;
pub use send::{finished, finished_once, frame_of, ready, started, started_once};
pub use store::stored;
