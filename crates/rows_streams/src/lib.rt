//! Tests of a run of the program over readers and writers, and of its lines as objects of JSON.
#![tactic(auto)]

#[cfg(test)]
mod messages;
#[cfg(test)]
mod streams;
