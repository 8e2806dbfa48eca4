// The two editions of the language, and the converter between them: definitions and laws; no code.
#![tactic(auto)]
