//! Groups of the contours of a section that end together on one side.
ghost use Rattle.std.specs.Prelude.{◌≡◌, ◌<◌, ◌≤◌, ◌%◌, ◌==◌, ◌++◌, ◌∷◌, [], if◌then◌else◌, find, IfOk, OnOk, length, map};
ghost use Rattle.std.specs.List.{range_with_len};
ghost use Rattle.correspondence.specs.Contours.{AreOutlines, points_of, point_lists};
ghost use Rattle.correspondence.specs.Nesting.{depth, depths};
ghost use Rattle.ring_caps.specs.Groups.{is_around, parent, parents, begins, joins_group, group, groups};
ghost use Rattle.ring_caps.specs.Held.{capped_by, parent_by, AreThere, lists};

use correspondence::{depths, lies_in};
use fku_types::NoMemory;
use fku_types::limits::MAX_CONTOURS;
use section_core::{Contour, Section};
use std::alloc::Global;

// How many other contours the contour at a place lies in.
fn level(contours: &[Contour], levels: &[u32], place: usize) -> u32
    requires levels { levels.now ≡ depths (map points_of contours.now) }
    requires place { place < length contours.now }
    ensures { result ≡ depth (map points_of contours.now) place }
{
    levels[place]
}

// Whether a contour is one less deep than the one at a place, which lies in it.
fn is_around(contours: &[Contour], levels: &[u32], place: usize, other: usize) -> bool
    requires outlines { AreOutlines contours.now }
    requires levels { levels.now ≡ depths (map points_of contours.now) }
    requires place { place < length contours.now }
    requires other { other < length contours.now }
    ensures { result ≡ is_around (map points_of contours.now) place other }
{
    let deep = u64::from(level(contours, levels, place));
    u64::from(level(contours, levels, other)) + 1 == deep && lies_in(contours, place, other)
}

// Whether the contour at a place is a hole.
fn is_odd(contours: &[Contour], levels: &[u32], place: usize) -> bool
    requires levels { levels.now ≡ depths (map points_of contours.now) }
    requires place { place < length contours.now }
    ensures { result ≡ ((depth (map points_of contours.now) place % 2) == 1) }
{
    level(contours, levels, place) % 2 == 1
}

// The first contour around the one at a place.
fn first_around(contours: &[Contour], levels: &[u32], place: usize) -> Option<usize>
    requires outlines { AreOutlines contours.now }
    requires levels { levels.now ≡ depths (map points_of contours.now) }
    requires place { place < length contours.now }
    ensures { result ≡ find (is_around (map points_of contours.now) place) (range_with_len 0 (length contours.now)) }
{
    for other in 0..contours.len() {
        if is_around(contours, levels, place, other) {
            return Some(other);
        }
    }
    None
}

// The parent of a contour; none if its depth is even.
fn parent(contours: &[Contour], levels: &[u32], place: usize) -> Option<usize>
    requires outlines { AreOutlines contours.now }
    requires levels { levels.now ≡ depths (map points_of contours.now) }
    requires place { place < length contours.now }
    ensures { result ≡ parent (map points_of contours.now) place }
{
    if is_odd(contours, levels, place) {
        first_around(contours, levels, place)
    } else {
        None
    }
}

/// The parent of each contour of a section, in file order, by its index; or `NoMemory`. The parent of a contour of odd
/// depth is the first contour that it lies in and whose depth is one less; a contour of even depth has none. Only
/// contours of such depths are tested against each other.
pub fn parents(alloc: Global, section: &Section) -> Result<Vec<Option<usize>>, NoMemory>
    requires { AreOutlines section.now.contours.items }
    ensures { IfOk result (λ v. v.items ≡ parents (point_lists section.now)) }
{
    let contours = section.contours.as_slice();
    let levels = depths(alloc, section)?;
    let mut parents = Vec::with_capacity(alloc, contours.len())?;
    for place in 0..contours.len() {
        parents.push(parent(contours, &levels, place))?;
    }
    Ok(parents)
}

// Whether the contour at a place begins a group: it has a cap, and its parent has none.
fn begins(parents: &[Option<usize>], joined: &[bool], place: usize) -> bool
    requires place { place < length parents.now }
    requires same { length joined.now ≡ length parents.now }
    requires there { AreThere parents.now }
    ensures { result ≡ begins (capped_by joined.now) (parent_by parents.now) place }
{
    if joined[place] {
        return false;
    }
    match parents[place] {
        Some(parent) => joined[parent],
        None => true,
    }
}

// Whether the contour at a place has a cap and its parent is the head of a group.
fn goes_on(parents: &[Option<usize>], joined: &[bool], head: usize, place: usize) -> bool
    requires place { place < length parents.now }
    requires same { length joined.now ≡ length parents.now }
    ensures { result ≡ joins_group (capped_by joined.now) (parent_by parents.now) head place }
{
    if joined[place] {
        return false;
    }
    match parents[place] {
        Some(parent) => parent == head,
        None => false,
    }
}

// Adds a place if its contour belongs to a group.
fn add_place(
    parents: &[Option<usize>],
    joined: &[bool],
    head: usize,
    place: usize,
    places: &mut Vec<u32>,
) -> Result<(), NoMemory>
    requires place { place < length parents.now }
    requires same { length joined.now ≡ length parents.now }
    requires few { length parents.now ≤ MAX_CONTOURS }
    ensures { OnOk result
        (places.new.items
        ≡ places.old.items
        ++ (if joins_group (capped_by joined.now) (parent_by parents.now) head place then place ∷ [] else [])) }
{
    if goes_on(parents, joined, head, place) {
        places.push(place as u32)?;
    }
    Ok(())
}

// The places of the group that a contour begins: its own, and those of the contours with a cap whose parent it is.
fn group(
    alloc: Global,
    parents: &[Option<usize>],
    joined: &[bool],
    head: usize,
) -> Result<Vec<u32>, NoMemory>
    requires head { head < length parents.now }
    requires same { length joined.now ≡ length parents.now }
    requires few { length parents.now ≤ MAX_CONTOURS }
    ensures { IfOk result (λ v.
        v.items ≡ group (capped_by joined.now) (parent_by parents.now) (length parents.now) head) }
{
    let mut places = Vec::new(alloc);
    places.push(head as u32)?;
    for place in 0..parents.len() {
        add_place(parents, joined, head, place, &mut places)?;
    }
    Ok(places)
}

// Adds the group that the contour at a place begins, if it begins one.
fn add_group(
    alloc: Global,
    parents: &[Option<usize>],
    joined: &[bool],
    place: usize,
    groups: &mut Vec<Vec<u32>>,
) -> Result<(), NoMemory>
    requires place { place < length parents.now }
    requires same { length joined.now ≡ length parents.now }
    requires few { length parents.now ≤ MAX_CONTOURS }
    requires there { AreThere parents.now }
    ensures { OnOk result
        (lists groups.new.items
        ≡ lists groups.old.items
        ++ (if begins (capped_by joined.now) (parent_by parents.now) place then group (capped_by joined.now)
        (parent_by parents.now) (length parents.now) place ∷ [] else [])) }
{
    if begins(parents, joined, place) {
        groups.push(group(alloc, parents, joined, place)?)?;
    }
    Ok(())
}

/// The groups of a side of a section, each by the indices of its contours, in the file order of the contours that begin
/// them; or `NoMemory`. `joined` marks the contours that are in pairs there, and so have no cap.
pub fn groups(
    alloc: Global,
    parents: &[Option<usize>],
    joined: &[bool],
) -> Result<Vec<Vec<u32>>, NoMemory>
    requires same { length joined.now ≡ length parents.now }
    requires few { length parents.now ≤ MAX_CONTOURS }
    requires there { AreThere parents.now }
    ensures { IfOk result (λ v.
        lists v.items ≡ groups (capped_by joined.now) (parent_by parents.now) (length parents.now)) }
{
    let mut groups = Vec::new(alloc);
    for place in 0..parents.len() {
        add_group(alloc, parents, joined, place, &mut groups)?;
    }
    Ok(groups)
}
