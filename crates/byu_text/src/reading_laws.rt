//! Laws: a written mesh can be read back, and a text has one reading.
ghost use Rattle.std.specs.Prelude.{◌≡◌, ℕ, ◌≤◌, List, length, All, IfOk, IfErr};
ghost use Rattle.triangle_meshes.specs.Meshes.{Surface, surface_of, IsValid};
ghost use Rattle.byu_text.specs.Lines.{text_lines_of};
ghost use Rattle.byu_text.specs.Reading.{BeginsAs, ReadsAsMesh, HasMeshFault};
ghost use Rattle.byu_text.specs.Fronts.{HasMeshFront};
ghost use Rattle.fku_types.specs.declared.fault.Fault.TheVariants.{NoMemory};

use crate::reading::read_byu;
use crate::texts::write_byu;
use fku_types::Fault;
use std::alloc::Global;
use triangle_meshes::Mesh;

// Triangles have three ids each.
fn have_three(triangles: &[[u32; 3]])
    ensures { All (λ ids. length ids ≡ 3) triangles.now }
{
    let _count = triangles.len();
}

// The polygons of a mesh are triangles.
fn are_triangles(mesh: &Mesh)
    ensures { All (All (λ ids. length ids ≡ 3)) (surface_of mesh.now).parts }
{
    for part in &mesh.parts {
        have_three(part);
    }
}

/// Writes a valid mesh and reads the text: `Ok` has the same mesh. The only error is `NoMemory`.
pub fn read_back(alloc: Global, mesh: &Mesh) -> Result<Mesh, Fault>
    requires { IsValid (surface_of mesh.now) }
    ensures ok { IfOk result (λ m. surface_of m ≡ surface_of mesh.now) }
    ensures err { IfErr result (λ f. f ≡ NoMemory) }
{
    are_triangles(mesh);
    let text = write_byu(alloc, mesh)?;
    read_byu(alloc, &text)
}

/// A text is that of at most one mesh, has its fault at one line at most, and never both.
pub fn texts_have_one_reading()
    ensures mesh { (text : List ℕ) (s r : Surface) → ReadsAsMesh text s → ReadsAsMesh text r → s ≡ r }
    ensures line { (text : List ℕ) (m n : ℕ) → HasMeshFault text m → HasMeshFault text n → m ≡ n }
    ensures either { (text : List ℕ) (s : Surface) (n : ℕ) → ReadsAsMesh text s → HasMeshFault text n → ⊥ }
{}

/// The first lines of a text are those of some valid mesh's text exactly if they are those of a front.
pub fn first_lines_tell_a_front()
    ensures told { (text : List ℕ) (n : ℕ) → n ≤ length (text_lines_of text)
        → ((s : Surface) × BeginsAs text n s)
        → HasMeshFront text n }
    ensures made { (text : List ℕ) (n : ℕ) → n ≤ length (text_lines_of text)
        → HasMeshFront text n
        → (s : Surface) × BeginsAs text n s }
{}
