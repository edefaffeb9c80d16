//! Tests of the program: what it writes and returns for words, an input and devices; what `prove` prints, also by several workers, and
//! what `check` says of it; and of profiles.
//! Begin at `rows.rt`, then `running.rt`.
#![tactic(auto)]

#[cfg(test)]
mod codes;
#[cfg(test)]
mod commands;
#[cfg(test)]
mod deep;
#[cfg(test)]
mod devices;
#[cfg(test)]
mod documents;
#[cfg(test)]
mod dominated;
#[cfg(test)]
mod faults;
#[cfg(test)]
mod limits;
#[cfg(test)]
mod profiles;
#[cfg(test)]
mod progress;
#[cfg(test)]
mod proofs;
#[cfg(test)]
mod reasons;
#[cfg(test)]
mod rows;
#[cfg(test)]
mod running;
#[cfg(test)]
mod turns;
#[cfg(test)]
mod verdicts;
#[cfg(test)]
mod words;
#[cfg(test)]
mod workers;
