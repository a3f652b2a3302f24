//! Tables of cases, worked out by hand: each is computed here from the definitions that contracts cite.
#![tactic(auto)]
