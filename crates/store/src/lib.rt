// The store: its contents, its memory, its log, its queue and formatting.
// Each function's contract is a definition of document 01 that crate `model` states.

#![tactic(auto)]

pub mod contents;
pub mod format;
pub mod log;
pub mod memory;
pub mod queue;
