//! Worked rows of the definitions of salt_model: scripts as trees, each with what is printed of it, computed.
#![tactic(auto)]
