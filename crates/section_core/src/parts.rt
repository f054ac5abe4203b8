//! The parts of a section text.
ghost use Rattle.std.specs.Prelude.{◌≡◌, ℤ, map, IfOk};
ghost use Rattle.section_core.specs.Views.{contour_parts, section_parts, link_parts};
ghost use Rattle.section_core.specs.Flat.{IsAtHeight, IsLevelSection, contour_data, section_data};

use fku_types::{CostRule, Name, NoMemory, PairRule, Point};
use std::alloc::Global;

/// A closed contour: its name, and its points in order. The last point is joined to the first.
#[derive(Drop)]
pub struct Contour {
    pub name: Name,
    pub points: Vec<Point>,
}

impl Contour {
    /// An equal contour; or `NoMemory`.
    pub fn copy(&self, alloc: Global) -> Result<Contour, NoMemory>
        ensures data { IfOk result (λ c. contour_data c ≡ contour_data self.now) }
        ensures parts { IfOk result (λ c. contour_parts c ≡ contour_parts self.now) }
        // The copy is at a height if all points of this contour are.
        ensures level { (z : ℤ) → IsAtHeight z self.now → IfOk result (IsAtHeight z) }
    {
        let points = self.points.to_vec(alloc)?;
        let name = self.name.copy();
        Ok(Contour { name, points })
    }
}

/// The contours at one height, an integer.
#[derive(Drop)]
pub struct Section {
    pub z: i32,
    pub contours: Vec<Contour>,
}

impl Section {
    /// An equal section; or `NoMemory`.
    pub fn copy(&self, alloc: Global) -> Result<Section, NoMemory>
        ensures data { IfOk result (λ s. section_data s ≡ section_data self.now) }
        ensures parts { IfOk result (λ s. section_parts s ≡ section_parts self.now) }
        // The copy's points are at its height if those of this section are.
        ensures level { IsLevelSection self.now → IfOk result IsLevelSection }
    {
        let mut contours = Vec::with_capacity(alloc, self.contours.len())?;
        for contour in &self.contours {
            contours.push(contour.copy(alloc)?)?;
        }
        let z = self.z;
        Ok(Section { z, contours })
    }
}

/// The names of two contours that correspond, the lower one first.
#[derive(Drop)]
pub struct Link {
    pub below: Name,
    pub above: Name,
}

impl Link {
    /// An equal link. Takes no memory.
    pub fn copy(&self) -> Link
        ensures { link_parts result ≡ link_parts self.now }
    {
        let below = self.below.copy();
        let above = self.above.copy();
        Link { below, above }
    }

    /// Equal links in the same order; or `NoMemory`.
    pub fn copy_all(alloc: Global, links: &[Link]) -> Result<Vec<Link>, NoMemory>
        ensures { IfOk result (λ v. map link_parts v.items ≡ map link_parts links.now) }
    {
        let mut copied = Vec::with_capacity(alloc, links.len())?;
        for link in links {
            copied.push(link.copy())?;
        }
        Ok(copied)
    }
}

/// The version of a text, which its first line states.
#[derive(Clone, Copy)]
pub enum Version {
    /// One object, without a name.
    One,
    /// Objects with names.
    Two,
}

/// The rules of a text: the cost of a step, and how contours correspond.
#[derive(Clone, Copy)]
pub struct Head {
    pub cost: CostRule,
    pub rule: PairRule,
}

/// An object that has been read: its name, its sections, and its links. It may have no contour.
#[derive(Drop)]
pub struct Draft {
    pub name: Name,
    pub sections: Vec<Section>,
    pub links: Vec<Link>,
}
