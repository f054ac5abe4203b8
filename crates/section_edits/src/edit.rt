//! Edits of sections, and why an edit is refused.
ghost use Rattle.std.specs.Prelude.{◌≡◌};

use fku_types::{Fault, LimitName, Name, NoMemory, Spot};
use std::alloc::AllocError;
use std::marker::Model;

/// Places in file order. Contracts see a list.
#[derive(Drop)]
pub struct Spots {
    places: Vec<Spot>,
}

impl Model for Spots {
    ghost use Rattle.std.specs.Prelude.{List};
    ghost use Rattle.fku_types.specs.declared.points.Spot.{Spot};

    ghost Value = { List Spot };

    ghost view = { λ s. s.places.items };
}

impl Spots {
    /// These places. Takes no memory.
    pub fn new(places: Vec<Spot>) -> Spots
        ensures { result ≡ places.items }
    {
        Spots { places }
    }

    /// The places. Takes no memory.
    pub fn as_slice(&self) -> &[Spot]
        ensures { result.now ≡ self.now }
    {
        &self.places
    }

    /// The places as a vector. Takes no memory.
    pub fn into_vec(self) -> Vec<Spot>
        ensures { result.items ≡ self }
    {
        self.places
    }
}

/// A change to the contours of sections. Coordinates and heights are integers.
#[derive(Drop)]
pub enum Edit {
    /// Moves the vertex at an index, counted in file order from 0, to another place.
    Move {
        name: Name,
        index: u32,
        x: i32,
        y: i32,
    },
    /// Inserts a vertex before the one at an index; at the end if the index is the number of vertices.
    Insert {
        name: Name,
        index: u32,
        x: i32,
        y: i32,
    },
    /// Removes the vertex at an index.
    Remove {
        name: Name,
        index: u32,
    },
    /// Adds a contour at the end of the section of a height.
    AddContour {
        z: i32,
        name: Name,
        points: Spots,
    },
    /// Removes a contour and the links that name it.
    RemoveContour {
        name: Name,
    },
}

/// Why an edit is refused, or that memory ran out. `read_edit` states when a line gets `EditForm`, and `edited` states
/// the order of the faults of an edit.
#[derive(Drop)]
pub enum EditFault {
    /// The line is no edit, or an x or y of the edit lies outside its range.
    EditForm,
    NoContour { name: Name },
    NoSection { z: i32 },
    NoVertex { name: Name, index: u32 },
    /// Fewer than three vertices would be left in the contour.
    TooFew { name: Name },
    NameTwice { name: Name },
    Limit { limit: LimitName },
    /// The edited sections have this fault: no contour, or a fault that only whole sections can have. It is never
    /// `NoMemory`, which is `EditFault::NoMemory`.
    Found { fault: Fault },
    NoMemory,
}

impl From<NoMemory> for EditFault {
    ghost use Rattle.section_edits.specs.declared.edit.EditFault.TheVariants as fault;

    ghost from_gives = { λ _ f. f ≡ fault.NoMemory };

    fn from(_error: NoMemory) -> EditFault {
        EditFault::NoMemory
    }
}

impl From<AllocError> for EditFault {
    ghost use Rattle.section_edits.specs.declared.edit.EditFault.TheVariants as fault;

    ghost from_gives = { λ _ f. f ≡ fault.NoMemory };

    fn from(_error: AllocError) -> EditFault {
        EditFault::NoMemory
    }
}
