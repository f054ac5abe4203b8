//! The limits and names of the parts read so far.
ghost use Rattle.std.specs.Prelude.{◌≡◌, ◌≤◌, nat_le, ℤ, pos, int_le, ◌&&◌, true, false, MatchOption, IfSome};
ghost use Rattle.section_core.specs.Costs.{cost_parts};
ghost use Rattle.section_core.specs.Machine.{section, contour, link};
ghost use Rattle.section_core.specs.Steps.{is_coordinate, is_weight, are_weights};
ghost use Rattle.section_core.specs.Numbers.{NumberIs};
ghost use Rattle.section_core.specs.Parts.{mix};
ghost use Rattle.fku_types.specs.declared.limits.TheConstants.{MAX_LINKS, MAX_SECTIONS, MAX_SECTION_VERTICES, MAX_VERTICES};

use fku_types::limits::{
    MAX_CONTOUR_VERTICES, MAX_CONTOURS, MAX_COORDINATE, MAX_LINKS, MAX_OBJECTS,
    MAX_SECTION_VERTICES, MAX_SECTIONS, MAX_VERTICES, MAX_WEIGHT,
};
use fku_types::{CostRule, Fault, LimitName, Name};
use indexmap::IndexSet;
use std::alloc::Global;
use text_io::Number;

/// The value of a coordinate or a height, if it is in its range.
pub fn coordinate(number: Number) -> Option<i32>
    ensures { (z : ℤ) → NumberIs number z
        → MatchOption result (is_coordinate z ≡ false) (λ v. (v ≡ z) × (is_coordinate z ≡ true)) }
{
    match number {
        Number::Value(value)
            if -i128::from(MAX_COORDINATE) <= value && value <= i128::from(MAX_COORDINATE) => Some(
            value as i32,
        ),
        _ => None,
    }
}

/// Whether a number is in the range of coordinates and heights. Takes no memory.
pub fn is_coordinate(value: i32) -> bool
    ensures { result ≡ is_coordinate value }
{
    -(MAX_COORDINATE as i32) <= value && value <= MAX_COORDINATE as i32
}

/// Whether a section may have so many vertices. Takes no memory.
pub fn fits_section(vertices: usize) -> bool
    ensures { result ≡ nat_le vertices MAX_SECTION_VERTICES }
{
    vertices <= MAX_SECTION_VERTICES as usize
}

/// The count of a contour's points, if it is within its limits.
pub fn point_count(number: Number) -> Option<u32>
    ensures bounds { IfSome result (λ n. (3 ≤ n) × (n ≤ MAX_CONTOUR_VERTICES)) }
    ensures value { (k : ℤ) → NumberIs number k
        → MatchOption result ((int_le (pos 3) k && int_le k (pos MAX_CONTOUR_VERTICES)) ≡ false) (λ n.
        (k ≡ pos n) × ((int_le (pos 3) k && int_le k (pos MAX_CONTOUR_VERTICES)) ≡ true)) }
{
    match number {
        Number::Value(value) if 3 <= value && value <= i128::from(MAX_CONTOUR_VERTICES) => Some(
            value as u32,
        ),
        _ => None,
    }
}

// A weight of a mix, if it is in its range.
fn weight(number: Number) -> Option<u32>
    ensures { (z : ℤ) → NumberIs number z
        → MatchOption result (is_weight z ≡ false) (λ v. (z ≡ pos v) × (is_weight z ≡ true)) }
{
    match number {
        Number::Value(value) if 0 <= value && value <= i128::from(MAX_WEIGHT) => Some(value as u32),
        _ => None,
    }
}

/// The cost rule of these weights, if they are in their range and not both 0.
pub fn mix(span: Number, area: Number) -> Option<CostRule>
    ensures { (a b : ℤ) → NumberIs span a
        → NumberIs area b
        → MatchOption result (are_weights a b ≡ false) (λ r. (cost_parts r ≡ mix a b) × (are_weights a b ≡ true)) }
{
    let span = weight(span)?;
    let area = weight(area)?;
    if span == 0 && area == 0 {
        return None;
    }
    Some(CostRule::Mix { span, area })
}

/// What the laws need of the parts so far, in text order: names, the last height, and counts. It admits one more part,
/// or returns the fault of the first law that this part breaks, with the line that the caller passes.
#[derive(Drop)]
pub struct Tally {
    names: IndexSet<Name>,
    objects: IndexSet<Name>,
    sections: u32,
    // The last height of the object, if it has one.
    height: Option<i32>,
    section_vertices: u32,
    vertices: u32,
    links: u32,
    ghost few_sections: { sections ≤ MAX_SECTIONS },
    ghost few_in_section: { section_vertices ≤ MAX_SECTION_VERTICES },
    ghost few_vertices: { vertices ≤ MAX_VERTICES },
    ghost few_links: { links ≤ MAX_LINKS },
}

impl Tally {
    ghost use Rattle.std.specs.Prelude.{◌⊎◌, ◌+◌, ◌<◌, Ok, Err, Some, None, OnOk, if◌then◌else◌};
    ghost use Rattle.section_core.specs.Laws.{within};
    ghost use Rattle.std.specs.List.{list_any};
    ghost use Rattle.section_core.specs.Machine.{same};
    ghost use Rattle.section_core.specs.Laws.{Facts, facts};
    ghost use Rattle.section_core.specs.Steps.{after, first_broken};
    ghost use Rattle.section_core.specs.Tallies.{Tallies, Admits, Judges, is_over};
    ghost use Rattle.section_core.specs.Made.{nothing};
    ghost use Rattle.section_core.specs.Machine.{version, object, parts_of, at_version};
    ghost use Rattle.section_core.specs.declared.parts.Version.TheVariants as Version;

    /// A tally of nothing; or of one object that has nothing yet.
    pub fn new(alloc: Global) -> Tally
        ensures read { Tallies result (facts (parts_of at_version)) }
        ensures begun { Tallies result nothing }
    {
        Tally {
            names: IndexSet::new(alloc),
            objects: IndexSet::new(alloc),
            sections: 0,
            height: None,
            section_vertices: 0,
            vertices: 0,
            links: 0,
        }
    }

    // Whether a height is above the one before.
    fn rises(&self, z: i32) -> bool
        ensures { result ≡ is_over self.now.height z }
    {
        match self.height {
            None => true,
            Some(height) => height < z,
        }
    }

    /// The one object of version 1 begins. Takes no memory.
    pub fn begin(&mut self)
        ensures { (f : Facts) → Tallies self.old f → Tallies self.new (after f (version Version.One)) }
    {
        self.height = None;
    }

    /// Admits an object of this name, or returns its fault. Stores the name; `NoMemory` if memory runs out.
    pub fn object(&mut self, name: &Name, line: u32) -> Result<(), Fault>
        ensures { (f : Facts) → Tallies self.old f
            → Admits line result (first_broken f (object name.now)) (λ _.
            Tallies self.new (after f (object name.now))) }
    {
        if self.objects.contains(name) {
            return Err(Fault::NameTwice { line });
        }
        if self.objects.len() >= MAX_OBJECTS {
            let limit = LimitName::Objects;
            return Err(Fault::Limit { limit, line });
        }
        self.add_object(name)
    }

    fn add_object(&mut self, name: &Name) -> Result<(), Fault>
        ensures only { result ≡ Ok tt ⊎ (result ≡ Err Fault.NoMemory) }
        ensures added { OnOk result
            ((f : Facts) → Tallies self.old f
            → list_any (same name.now) f.objects ≡ false
            → Tallies self.new (after f (object name.now))) }
    {
        match self.objects.insert(name.copy()) {
            Err(_) => Err(Fault::NoMemory),
            Ok(_) => {
                self.height = None;
                Ok(())
            }
        }
    }

    /// Admits a section whose height is in range, or returns its fault. Takes no memory.
    pub fn section(&mut self, z: i32, line: u32) -> Result<(), Fault>
        ensures { (f : Facts) → Tallies self.old f
            → is_coordinate z ≡ true
            → Judges line result (first_broken f (section z)) (λ _. Tallies self.new (after f (section z))) }
    {
        if !self.rises(z) {
            return Err(Fault::NotRising { line });
        }
        if self.sections == MAX_SECTIONS {
            let limit = LimitName::Sections;
            return Err(Fault::Limit { limit, line });
        }
        self.sections += 1;
        self.height = Some(z);
        self.section_vertices = 0;
        Ok(())
    }

    /// Admits a contour whose count is within its limits, or returns its fault. Stores its name; `NoMemory` if memory
    /// runs out.
    pub fn contour(&mut self, name: &Name, count: u32, line: u32) -> Result<(), Fault>
        requires { count ≤ MAX_CONTOUR_VERTICES }
        ensures { (f : Facts) → Tallies self.old f
            → list_any (same name.now) f.names ≡ false
            → (int_le (pos 3) (pos count) && int_le (pos count) (pos MAX_CONTOUR_VERTICES)) ≡ true
            → Admits line result (first_broken f (contour name.now (pos count))) (λ _.
            Tallies self.new (after f (contour name.now (pos count)))) }
    {
        let in_section = (self.section_vertices + count) as usize;
        let limit = if !fits_section(in_section) {
            LimitName::SectionVertices
        } else if self.vertices + count > MAX_VERTICES {
            LimitName::Vertices
        } else if self.names.len() >= MAX_CONTOURS {
            LimitName::Contours
        } else {
            return self.add_contour(name, count);
        };
        Err(Fault::Limit { limit, line })
    }

    fn add_contour(&mut self, name: &Name, count: u32) -> Result<(), Fault>
        requires section { self.old.section_vertices + count ≤ MAX_SECTION_VERTICES }
        requires all { self.old.vertices + count ≤ MAX_VERTICES }
        ensures only { result ≡ Ok tt ⊎ (result ≡ Err Fault.NoMemory) }
        ensures added { OnOk result
            ((f : Facts) → Tallies self.old f
            → list_any (same name.now) f.names ≡ false
            → Tallies self.new (after f (contour name.now (pos count)))) }
    {
        match self.names.insert(name.copy()) {
            Err(_) => Err(Fault::NoMemory),
            Ok(_) => {
                self.section_vertices += count;
                self.vertices += count;
                Ok(())
            }
        }
    }

    /// Whether the name is taken.
    pub fn has_name(&self, name: &Name) -> bool
        ensures { (f : Facts) → Tallies self.now f → result ≡ list_any (same name.now) f.names }
    {
        self.names.contains(name)
    }

    /// Admits a link, or returns its fault. Takes no memory.
    pub fn link(&mut self, line: u32) -> Result<(), Fault>
        ensures { (f : Facts) → Tallies self.old f
            → Judges line result (if nat_le MAX_LINKS f.links then Some (within LimitName.Links) else None) (λ _.
            Tallies self.new (record f { links = f.links + 1 })) }
    {
        if self.links == MAX_LINKS {
            let limit = LimitName::Links;
            return Err(Fault::Limit { limit, line });
        }
        self.links += 1;
        Ok(())
    }
}
