// What the answers of the full check and of the ticket writer mean, and that the writer and both checks keep what is quoted, as
// mathematics over their rules: the crate has laws and the marked examples of all calls (specs/), no code.
#![tactic(auto)]
