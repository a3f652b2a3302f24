//! Images of devices, each with what it stands for.
#![tactic(auto)]
