//! A message memory that three ports use at once, each perhaps in a thread of its own, with no lock.
//!
//! Each object has a word, which holds the number of the last change that was made there, 0 if there was none. The
//! number names a version: the record that the change left, in words of its own. A port writes a version before it
//! publishes the number, and nobody writes it again. So a look is one load of the object's word, and what it names
//! stays as it is. A change is a look, a version that is written aside, and one exchange of the word from the number
//! that was found to the new one. If the word holds another number by then, the exchange fails, and nothing is
//! changed.
//!
//! ```text
//! IF1               IF2                    bus                    word of object 1   word of object 2
//! looks at 1: 0     looks at 1: 0          looks at 2: 0                         0                  0
//! writes version 1                         writes version 131073                 0                  0
//! 0 to 1: done                                                                   1                  0
//!                   writes version 65537   0 to 131073: done                     1             131073
//!                   0 to 65537: lost                                             1             131073
//!                   looks at 1: 1                                                1             131073
//!                   writes version 65537                                         1             131073
//!                   1 to 65537: done                                         65537             131073
//! ```
//!
//! So there is one history of all events, the looks and the exchanges that succeed, in the order in which they reach
//! the words: here the three looks, the changes 1 and 131073, IF2's second look and change 65537. A port knows the
//! part of it that it has seen. The failed exchange is no event; it showed IF2 what the others had done.
//!
//! Looks at all objects can be at one point in the history too: all words are loaded, and loaded again. If each still
//! holds its number, it held it in between, since no number comes twice, and the looks are there.
//!
//! `WordRam` has a word for each object, so that a change is lost only to one of the same object. `RootRam` has one
//! word for all objects, and a version is the whole memory; there any change costs the others a try. Both are the one
//! memory `Ram`, over two layouts. The rule that every step of every port keeps is in `specs/Rule.antt`, and what
//! a layout gives is in `specs/Layout.antt`. Nothing is allocated once a memory is open, and no call on a port waits.
#![tactic(auto)]

mod ending;
mod layout;
mod one_word;
mod one_word_each;
mod picture;
mod plays;
mod port;
mod ram;
mod rule;
mod steps;
mod version;
mod view;
mod words;

pub use layout::Layout;
pub use one_word::OneWord;
pub use one_word_each::OneWordEach;
pub use port::Port;
pub use ram::Ram;
pub use view::{PortView, View};

/// A word for each object: changes of other objects never cost a try. A port may be given up to 4,096 changes.
pub type WordRam = Ram<OneWordEach>;

/// One word for all objects: any change costs the others a try. A port may be given up to 64 changes.
pub type RootRam = Ram<OneWord>;
