//! The calls for C: several flows of an accepted profile behind a handle. clients/rohcfn_c.h has what a caller owes.
#![tactic(auto)]

mod answer;
mod exports;
mod handle;
mod laws;
mod line;
mod loose;
mod opened;
mod opening;
mod steps;
