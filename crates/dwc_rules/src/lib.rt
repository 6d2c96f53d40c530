//! Definitions.
#![tactic(auto)]
