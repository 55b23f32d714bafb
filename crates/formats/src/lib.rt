// Formats: no code, definitions and laws alone.
#![tactic(auto)]
