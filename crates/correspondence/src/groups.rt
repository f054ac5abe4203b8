//! Successive contours of a section.

ghost use Rattle.std.specs.Prelude.{ℕ, List, ◌≡◌, ◌+◌, ◌<◌, ◌≤◌, IfOk, length, map};
ghost use Rattle.fku_types.specs.declared.points.Point.{Point};
ghost use Rattle.correspondence.specs.Bounding.{Encloses};
ghost use Rattle.correspondence.specs.Contours.{AreOutlines, points_of, contour_at};
ghost use Rattle.correspondence.specs.Groups.{IsBoundedGroup, AreGroups};

use crate::bounds::Bounds;
use section_core::Contour;
use std::alloc::{AllocError, Global};

// Contours of a group. Each contour is compared with the bounds of a group first, and with those of each of its
// contours only if these meet. With fewer contours, more groups are compared; with more, more groups meet.
const GROUP: usize = 64;

/// Successive contours of a section, from `begin` to before `end`, with bounds of all their points. Contours of a file
/// stand near to others that stand beside them in the section, so most other contours have bounds that do not meet
/// these.
#[derive(Clone, Copy)]
pub struct Group {
    pub begin: usize,
    pub end: usize,
    pub bounds: Bounds,
    each: [Bounds; GROUP],
}

/// The bounds of the contour at a place.
pub fn bounds_at(contours: &[Contour], place: usize) -> Bounds
    requires outlines { AreOutlines contours.now }
    requires place { place < length contours.now }
    ensures { Encloses result (contour_at (map points_of contours.now) place) }
{
    Bounds::of(&contours[place].points)
}

impl Group {
    /// The contours from one on: 64, or those that are left.
    pub fn at(contours: &[Contour], begin: usize) -> Group
        requires outlines { AreOutlines contours.now }
        requires within { begin < length contours.now }
        ensures group { IsBoundedGroup (map points_of contours.now) result }
        ensures begin { result.begin ≡ begin }
    {
        let end = contours.len().min(begin + GROUP);
        let mut bounds = bounds_at(contours, begin);
        let mut each = [bounds; GROUP];
        for place in begin..end {
            let one = bounds_at(contours, place);
            each[place - begin] = one;
            bounds = bounds.and(one);
        }
        Group {
            begin,
            end,
            bounds,
            each,
        }
    }

    /// The bounds of one of its contours, by its place in the section.
    pub fn bounds_of(&self, place: usize) -> Bounds
        requires from { self.now.begin ≤ place }
        requires to { place < self.now.begin + GROUP }
        ensures { (contours : List (List Point)) → IsBoundedGroup contours self.now
            → place < self.now.end
            → Encloses result (contour_at contours place) }
    {
        self.each[place - self.begin]
    }
}

/// All contours of a section in groups; or `AllocError`.
pub fn all_groups(alloc: Global, contours: &[Contour]) -> Result<Vec<Group>, AllocError>
    requires { AreOutlines contours.now }
    ensures { IfOk result (λ v. AreGroups (map points_of contours.now) v.items) }
{
    let mut groups = Vec::new(alloc);
    let mut begin = 0;
    while begin < contours.len() {
        let group = Group::at(contours, begin);
        groups.push(group)?;
        begin = group.end;
    }
    Ok(groups)
}
