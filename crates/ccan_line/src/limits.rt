//! The limits of a script. The definitions have numbers of their own, and what reads a script is proved to hold those.

/// The most lines that a list of a script may have.
pub const MAX_LINES: usize = 2_000;

/// The most names that the order of the ports may have: one for each line.
pub const MAX_NAMES: usize = 6_000;

/// The greatest number of a profile: 1 is `Profile::One`, 2 is `Profile::Two`.
pub const MAX_PROFILE: u64 = 2;

/// The profile if a script doesn't say it.
pub const DEFAULT_PROFILE: u64 = 1;

/// The most changes that a script may let a port make.
pub const MAX_QUOTA: u64 = 4_096;

/// How many changes a port may make if a script doesn't say it.
pub const DEFAULT_QUOTA: u64 = 64;

/// The most tries of a change that a script may allow.
pub const MAX_TRIES: u64 = 1_000;

/// How often a change is tried if a script doesn't say it.
pub const DEFAULT_TRIES: u64 = 100;

/// The most nodes that the bus may have besides the controller.
pub const MAX_NODES: u64 = 8;

/// How many such nodes there are if a script doesn't say it.
pub const DEFAULT_NODES: u64 = 0;

/// The most looks of a wait for a flag.
pub const MAX_TURNS: u64 = 1_000_000;

/// The most groups of eleven recessive bits that a line may let pass.
pub const MAX_GROUPS: u64 = 10_000;

/// The most frames that the other nodes may send in a round.
pub const MAX_FRAMES: usize = 8;
