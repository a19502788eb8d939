//! Tests of what lies below scripts, by worked examples whose expected values come from the rules and not from the program:
//! objects, frames and how long they are, fault confinement, the controller's registers, and where the registers of the chip are;
//! the bus, over a plain memory, and the message handler, over that and over one whose tries are lost on purpose; the memories
//! that threads share; saved chips, which were led through many states and come back from their bytes; the library for C; and the
//! texts of errors and names. There is nothing here but tests.
#![tactic(auto)]

#[cfg(test)]
mod bus;
#[cfg(test)]
mod confinement;
#[cfg(test)]
mod contended;
#[cfg(test)]
mod controller;
#[cfg(test)]
mod expect;
#[cfg(test)]
mod frames;
#[cfg(test)]
mod handler;
#[cfg(test)]
mod library;
#[cfg(test)]
mod map;
#[cfg(test)]
mod memory;
#[cfg(test)]
mod objects;
#[cfg(test)]
mod plain;
#[cfg(test)]
mod saved;
#[cfg(test)]
mod saved_bytes;
#[cfg(test)]
mod shared;
#[cfg(test)]
mod texts;
#[cfg(test)]
mod times;
#[cfg(test)]
mod wire;
