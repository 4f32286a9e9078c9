// Which interrupt a vCPU is to take: candidates and the best, group priority and running level, acknowledge, end of interrupt, deactivate, the signal.
#![tactic(auto)]

pub mod acknowledge;
pub mod end;
mod search;
