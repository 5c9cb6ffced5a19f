// What the answers of the challenge check mean, as mathematics over its rules: the crate has laws (specs/), no code.
#![tactic(auto)]
