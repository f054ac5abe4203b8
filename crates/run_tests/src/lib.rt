//! Tests of runs, for what the rows of `tools/tests` cannot show: sources and sinks that fail, what a run reads, how
//! many pairs a solver has counted and how many workers it has, pools of workers, and what words mean.
#![tactic(auto)]

#[cfg(test)]
mod answers;
#[cfg(test)]
mod count_tests;
#[cfg(test)]
mod runs;
#[cfg(test)]
mod stream_tests;
#[cfg(test)]
mod texts;
#[cfg(test)]
mod word_tests;
#[cfg(test)]
mod worker_tests;
