// Sums and matrix products over the integers, and the soundness of Freivalds' check: rules and laws only, in specs/.
#![tactic(auto)]
