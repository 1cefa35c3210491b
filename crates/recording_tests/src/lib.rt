//! What a recording is made of, where no whole run shows it: ids, regions, buffers, desks, blocks, summaries, files, lanes and reports.
#![tactic(auto)]

#[cfg(test)]
mod caches;
#[cfg(test)]
mod chunkers;
#[cfg(test)]
mod contents;
#[cfg(test)]
mod desks;
#[cfg(test)]
mod ids;
#[cfg(test)]
mod index_tables;
#[cfg(test)]
mod lanes;
#[cfg(test)]
mod merges;
#[cfg(test)]
mod overlaps;
#[cfg(test)]
mod passes;
#[cfg(test)]
mod picks;
#[cfg(test)]
mod recordings;
#[cfg(test)]
mod recoveries;
#[cfg(test)]
mod regions;
#[cfg(test)]
mod rests;
#[cfg(test)]
mod same;
#[cfg(test)]
mod scribes;
#[cfg(test)]
mod summaries;
#[cfg(test)]
mod threads;
#[cfg(test)]
mod turns;
