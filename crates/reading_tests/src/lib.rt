//! What the lowest crates and the readers of files do on small cases, where no whole run shows it: the outside, numbers and texts as
//! bytes, checksums, records, scans, replays, scripts and indexes.
#![tactic(auto)]

#[cfg(test)]
mod checksums;
#[cfg(test)]
mod data_records;
#[cfg(test)]
mod files;
#[cfg(test)]
mod generated;
#[cfg(test)]
mod index_records;
#[cfg(test)]
mod indexes;
#[cfg(test)]
mod outside;
#[cfg(test)]
mod owned_records;
#[cfg(test)]
mod plays;
#[cfg(test)]
mod records;
#[cfg(test)]
mod replays;
#[cfg(test)]
mod same;
#[cfg(test)]
mod scans;
#[cfg(test)]
mod sources;
#[cfg(test)]
mod text_maps;
#[cfg(test)]
mod wire;
