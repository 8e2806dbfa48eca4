// What a step and the functions that carry out one instruction promise: definitions and laws alone.
#![tactic(auto)]
