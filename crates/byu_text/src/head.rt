//! The first line of a text, and where the other lines begin.
ghost use Rattle.std.specs.Prelude.{◌≡◌, ◌+◌, ◌*◌, ◌/◌, ◌↔◌, IsTrue, MatchOption};
ghost use Rattle.byu_text.specs.Pieces.{AreMeshCounts, mesh_head_line};
ghost use Rattle.byu_text.specs.Stages.{counts_of, HasHead, NoneOf, point_lines_at, polygons_at, text_end_at};

use crate::read_fields::{line_at, number_of};
use fku_types::limits::{MAX_MESH_PARTS, MAX_MESH_TRIANGLES, MAX_MESH_VERTICES};

/// The counts in a text's first line: parts, vertices and polygons.
#[derive(Clone, Copy)]
pub struct Head {
    pub parts: usize,
    pub vertices: usize,
    pub polygons: usize,
}

impl Head {
    /// How many lines the vertices take.
    pub fn vertex_lines(self) -> usize
        requires { AreMeshCounts (counts_of self) }
        ensures { result ≡ (self.vertices + 1) / 2 }
    {
        (self.vertices + 1) / 2
    }

    /// Where the lines of the vertices begin.
    pub fn points_at(self) -> usize
        requires { AreMeshCounts (counts_of self) }
        ensures { result ≡ point_lines_at (counts_of self) }
    {
        33 + 17 * self.parts
    }

    /// Where the lines of the polygons begin.
    pub fn polygons_at(self) -> usize
        requires { AreMeshCounts (counts_of self) }
        ensures { result ≡ polygons_at (counts_of self) }
    {
        self.points_at() + 36 * self.vertices + self.vertex_lines()
    }

    /// Where the text ends.
    pub fn end_at(self) -> usize
        requires { AreMeshCounts (counts_of self) }
        ensures { result ≡ text_end_at (counts_of self) }
    {
        self.polygons_at() + 25 * self.polygons
    }
}

// Whether a valid mesh has these counts.
fn is_head(head: Head) -> bool
    ensures { IsTrue result ↔ AreMeshCounts (counts_of head) }
{
    let Head {
        parts,
        vertices,
        polygons,
    } = head;
    1 <= parts
        && parts <= MAX_MESH_PARTS
        && 1 <= vertices
        && vertices <= MAX_MESH_VERTICES as usize
        && parts <= polygons
        && polygons <= MAX_MESH_TRIANGLES
}

/// The counts in the first line; none if no valid mesh's text begins with that line.
pub fn read_head(text: &[u8]) -> Option<Head>
    ensures { MatchOption result (NoneOf AreMeshCounts mesh_head_line text.now) (λ h. HasHead text.now (counts_of h)) }
{
    let line = line_at(text, 0, 32)?;
    let parts = number_of(&line[..8])? as usize;
    let vertices = number_of(&line[8..16])? as usize;
    let polygons = number_of(&line[16..24])? as usize;
    let entries = number_of(&line[24..32])? as usize;
    let head = Head {
        parts,
        vertices,
        polygons,
    };
    if !is_head(head) {
        return None;
    }
    if entries != 3 * polygons {
        return None;
    }
    Some(head)
}
