// The fields of one record of 64 bytes, and what refusal 6 asks of them by the kinds that have them: bytes 2 to 11 (heads), 12 to 15 (bodies). Two or four
// bytes are tested at once.
#![tactic(auto)]

pub mod bodies;
pub mod heads;
