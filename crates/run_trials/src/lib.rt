//! Trials of whole runs over memory: what each command answers, byte by byte, and each refusal with its line; streams that fail
//! at each call, files cut at each place, and the largest values.
//!
//! What a run does is proved for all inputs where `run` stands, but a body that gives up for want of memory meets those clauses,
//! and no clause says after how many calls or bytes a run of given words stops. The tables here call with ample memory and
//! compare.
#![tactic(auto)]

#[cfg(test)]
mod built;
#[cfg(test)]
mod checks;
#[cfg(test)]
mod cuts;
#[cfg(test)]
mod dominance;
#[cfg(test)]
mod drawings;
#[cfg(test)]
mod faults;
#[cfg(test)]
mod files;
#[cfg(test)]
mod generated;
#[cfg(test)]
mod largest;
#[cfg(test)]
mod lattices;
#[cfg(test)]
mod lengths;
#[cfg(test)]
mod orientations;
#[cfg(test)]
mod paths;
#[cfg(test)]
mod queries;
#[cfg(test)]
mod readers;
#[cfg(test)]
mod runs;
#[cfg(test)]
mod sessions;
#[cfg(test)]
mod verdicts;
#[cfg(test)]
mod words;
