// Lists and quoted texts: definitions and laws for the specification; no code.
#![tactic(auto)]
