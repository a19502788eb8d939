//! Tests over the crates that make up the way of a script: reading it, running it in order and in threads, printing what came of
//! it, and searching for all that can come of it, the words that a machine can say, and all schedules of tables, also on a chip.
//! What the gate's tools give to the proved programs is not tried again here: these tests are of what a program can't be made to
//! show, as streams that fail once, gates, threads of a caller's own and calls that count, and call each public function once.
//! Expected values come from the formats and not from the program. There is nothing here but tests and what they need.
#![tactic(auto)]

#[cfg(test)]
mod chip_device;
#[cfg(test)]
mod controller_lines;
#[cfg(test)]
mod expect;
#[cfg(test)]
mod failing;
#[cfg(test)]
mod faults;
#[cfg(test)]
mod faulty;
#[cfg(test)]
mod landing;
#[cfg(test)]
mod languages;
#[cfg(test)]
mod laws;
#[cfg(test)]
mod limits;
#[cfg(test)]
mod lines;
#[cfg(test)]
mod members;
#[cfg(test)]
mod outcomes;
#[cfg(test)]
mod quotas;
#[cfg(test)]
mod races;
#[cfg(test)]
mod reader;
#[cfg(test)]
mod runs;
#[cfg(test)]
mod searches;
mod shared_word;
#[cfg(test)]
mod stairs;
#[cfg(test)]
mod streams;
#[cfg(test)]
mod tables;
#[cfg(test)]
mod threads;
