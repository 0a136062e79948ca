//! What SQL makes of tables, for every schema: definitions and lemmas, and no code.
#![tactic(auto)]
