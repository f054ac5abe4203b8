//! Only tests: certificates that are judged, printed and read, least tilings through marked spans, and values that go
//! from thread to thread.
#![tactic(auto)]

#[cfg(test)]
mod cap_tests;
#[cfg(test)]
mod certificate_text_tests;
#[cfg(test)]
mod check_tests;
#[cfg(test)]
mod comparisons;
#[cfg(test)]
mod composite_tests;
#[cfg(test)]
mod landmark_tests;
#[cfg(test)]
mod pair_tests;
#[cfg(test)]
mod pool_tests;
#[cfg(test)]
mod potential_tests;
#[cfg(test)]
mod rings;
#[cfg(test)]
mod thread_tests;
#[cfg(test)]
mod tile_tests;
