//! Recordings whose feeds and store wait for one another, each for a stated number of looks: lanes and writer run beside each
//! other, over a buffer that is bounded.
#![tactic(auto)]

#[cfg(test)]
mod beside;
#[cfg(test)]
mod held_source;
#[cfg(test)]
mod held_store;
#[cfg(test)]
mod looking;
