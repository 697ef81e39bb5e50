//! Each public function of the filter side at words, texts and filters whose answers the manuals give.
#![tactic(auto)]

#[cfg(test)]
mod assembled;
#[cfg(test)]
mod chains;
#[cfg(test)]
mod checks;
#[cfg(test)]
mod conditions;
#[cfg(test)]
mod filters;
#[cfg(test)]
mod insns;
#[cfg(test)]
mod instructions;
#[cfg(test)]
mod listed;
#[cfg(test)]
mod runs;
#[cfg(test)]
mod surveys;
#[cfg(test)]
mod texts;
