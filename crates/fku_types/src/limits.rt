//! The limits of the formats and of the words of a call: each is one constant, which code, contracts and definitions
//! cite. `docs/formats.md` and the tools in `tools/` have the same numbers, which `.ci/limits` compares.

/// How far a coordinate or a height lies from 0 at most.
pub const MAX_COORDINATE: u32 = 999_999;

/// How far two coordinates, or two heights, lie apart at most.
pub const MAX_DIFFERENCE: u32 = 2 * MAX_COORDINATE;

/// The largest weight of a cost rule.
pub const MAX_WEIGHT: u32 = 1_000;

/// The largest absolute value of a number that a text may have: the cost and the potential of a certificate reach it.
pub const MAX_NUMBER: u128 = 1_000_000_000_000_000_000_000_000_000_000_000_000;

/// The most bytes of the name of a contour or an object.
pub const MAX_NAME_BYTES: usize = 64;

/// The most bytes of an input of a command that reads a section text, but for `check`.
pub const MAX_INPUT_BYTES: usize = 67_108_864;

/// The most bytes of an input of `check`, a section text and a certificate. No command takes a longer input.
pub const MAX_CHECK_BYTES: usize = 2_147_483_648;

/// The most bytes of an input that is a MOVIE.BYU text.
pub const MAX_MESH_BYTES: usize = 268_435_456;

/// The most objects of a section text.
pub const MAX_OBJECTS: usize = 1_024;

/// The most sections of a section text, over all objects.
pub const MAX_SECTIONS: u32 = 16_384;

/// The most contours of a section text, over all objects.
pub const MAX_CONTOURS: usize = 65_536;

/// The most vertices of a section text, over all objects.
pub const MAX_VERTICES: u32 = 2_097_152;

/// The most vertices of a section.
pub const MAX_SECTION_VERTICES: u32 = 16_384;

/// The most vertices of a contour. The fewest are three, those of a triangle.
pub const MAX_CONTOUR_VERTICES: u32 = 4_096;

/// The most vertices of a ring that is made of several contours, for a pair or for a cap round holes: so the most rows
/// and the most columns of a pair.
pub const MAX_COMPOSITE_VERTICES: u32 = 4_096;

/// The largest start row of a certificate.
pub const MAX_START_ROW: u32 = MAX_COMPOSITE_VERTICES - 1;

/// The most steps of a tiling, so the most letters of its word.
pub const MAX_STEPS: usize = 2 * MAX_COMPOSITE_VERTICES as usize;

/// The most links of a section text, over all objects.
pub const MAX_LINKS: u32 = 131_072;

/// The most edit lines.
pub const MAX_EDITS: usize = 1_000;

/// The largest number of a pair, in the words of `certify` and in a certificate. No text has more pairs, since each
/// has a contour below of its own.
pub const MAX_PAIRS: u32 = 65_536;

/// The most marks: no input has room for more of their lines.
pub const MAX_MARKS: usize = MAX_INPUT_BYTES / 4;

/// The most workers.
pub const MAX_WORKERS: u32 = 64;

/// The most parts of a mesh.
pub const MAX_MESH_PARTS: usize = 4_096;

/// The most vertices of a mesh.
pub const MAX_MESH_VERTICES: u32 = 2_097_152;

/// The most triangles of a mesh, over all parts.
pub const MAX_MESH_TRIANGLES: usize = 5_000_000;

/// The largest seed of a made stack.
pub const MAX_SEED: u32 = 2_147_483_647;

/// The most sections of a made stack.
pub const MAX_DEMO_SECTIONS: u32 = 64;

/// The most vertices of a contour of a made stack. The fewest are three.
pub const MAX_DEMO_VERTICES: u32 = 1_000;
