//! Points in space and places in the plane.

/// A point: `x` and `y` in the plane of its section, `z` the section's height; all are integers.
#[derive(Clone, Copy, Debug, PartialEq, Eq)]
pub struct Point {
    pub x: i32,
    pub y: i32,
    pub z: i32,
}

/// A place in the plane of a section: a vertex of a new contour or of a rounded slice.
#[derive(Clone, Copy, Debug, PartialEq, Eq)]
pub struct Spot {
    pub x: i32,
    pub y: i32,
}
