// The lists of one record of 64 bytes, and what refusal 6 asks of each by the kinds that have it: the keys' slots (keys), the rest (tails). Eight bytes are
// tested at once.
#![tactic(auto)]

pub mod keys;
pub mod tails;
