//! Definitions: the machines that run expressions.
#![tactic(auto)]
