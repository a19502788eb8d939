//! The memories that threads share, all three of them: worked examples with a forced order of the ports' steps, and ports in
//! threads of their own. `ThreePorts` is a memory with its ports, in one thread; `Contended` is an access whose every try of a
//! change is disturbed by another port.

mod calls;
mod chip_bench;
mod chip_threads;
mod chips;
mod contended;
mod pictures;
mod rivals;
mod tests;
mod three_ports;

use contended::Contended;
