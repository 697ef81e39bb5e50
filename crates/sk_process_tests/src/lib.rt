//! Each public function that has to do with processes, from their numbers to the calls, the stores, the scenario reader and
//! the words of `skern`, at examples whose answers the manuals give.
#![tactic(auto)]

#[cfg(test)]
mod asking;
#[cfg(test)]
mod candidates;
#[cfg(test)]
mod deliveries;
#[cfg(test)]
mod events;
#[cfg(test)]
mod ids;
#[cfg(test)]
mod kernel;
#[cfg(test)]
mod numbers;
#[cfg(test)]
mod pairs;
#[cfg(test)]
mod processes;
#[cfg(test)]
mod random;
#[cfg(test)]
mod scenarios;
#[cfg(test)]
mod sessions;
#[cfg(test)]
mod signals;
#[cfg(test)]
mod skern;
#[cfg(test)]
mod stores;
#[cfg(test)]
mod syscalls;
#[cfg(test)]
mod uses;
#[cfg(test)]
mod world;
