//! Only tests: worked texts, contours, and what the crates above the section text make of them.
#![tactic(auto)]

#[cfg(test)]
mod comparisons;
#[cfg(test)]
mod contour_tests;
#[cfg(test)]
mod correspondence_tests;
#[cfg(test)]
mod densify_tests;
#[cfg(test)]
mod edit_tests;
#[cfg(test)]
mod object_tests;
#[cfg(test)]
mod pair_tests;
#[cfg(test)]
mod ring_object_tests;
#[cfg(test)]
mod ring_tests;
#[cfg(test)]
mod slice_tests;
#[cfg(test)]
mod surface_tests;
#[cfg(test)]
mod texts;
