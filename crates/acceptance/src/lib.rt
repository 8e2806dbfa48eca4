// That the program of an accepted text is well formed: definitions and laws for the specification; no code.
#![tactic(auto)]
