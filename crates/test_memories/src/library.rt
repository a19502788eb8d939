//! The library for C, called from here: its calls, and the numbers and sizes that its header has.

mod calls;
mod chips;
mod members;
mod table;
