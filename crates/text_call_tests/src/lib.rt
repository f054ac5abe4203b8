//! Only tests: section texts that are read, made and printed, texts of meshes that are read and counted, the edges and
//! volumes of meshes, and the measures and crossings of a part.
#![tactic(auto)]

#[cfg(test)]
mod answers;
#[cfg(test)]
mod byu_tests;
#[cfg(test)]
mod crossing_tests;
#[cfg(test)]
mod demo_tests;
#[cfg(test)]
mod edge_tests;
#[cfg(test)]
mod line_tests;
#[cfg(test)]
mod make_tests;
#[cfg(test)]
mod measure_tests;
#[cfg(test)]
mod mesh_text_tests;
#[cfg(test)]
mod outside_tests;
#[cfg(test)]
mod parse_tests;
#[cfg(test)]
mod solids;
#[cfg(test)]
mod volume_tests;
