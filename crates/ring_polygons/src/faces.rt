//! The faces of a section.

/// The two faces of a section, on which caps close its contours.
#[derive(Clone, Copy)]
pub enum Face {
    /// The face below it; caps there are bottoms.
    Below,
    /// The face above it; caps there are tops.
    Above,
}
