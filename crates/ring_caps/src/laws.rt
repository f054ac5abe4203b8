//! Laws on surfaces with caps of groups.
ghost use Rattle.std.specs.Prelude.{◌≡◌};
ghost use Rattle.fku_types.specs.declared.fault.Fault.{Fault};
ghost use Rattle.section_core.specs.Parts.{Parts, FileParts};
ghost use Rattle.triangle_meshes.specs.Meshes.{Surface, surface_of};
ghost use Rattle.surface_core.specs.declared.surfaces.Built.{Built};
ghost use Rattle.surface_core.specs.Surfaces.{IsBuilt};
ghost use Rattle.surface_core.specs.Objects.{AreBuilt};
ghost use Rattle.ring_caps.specs.RingSurfaces.{IsPlainSurface, ArePlainSurfaces, IsRingBuilt, IsRingFound, AreRingBuilt, IsRingFoundIn};

/// Sections have one surface with caps of groups or one first fault, and never both.
pub fn ring_surfaces_are_one()
    ensures one { (S : Parts) (b c : Built) → IsRingBuilt S b
        → IsRingBuilt S c
        → (surface_of b.mesh ≡ surface_of c.mesh) × (b.pairs ≡ c.pairs) × (b.cost ≡ c.cost) × (b.folded ≡ c.folded) }
    ensures none { (S : Parts) (b : Built) (fault : Fault) → IsRingBuilt S b → IsRingFound S fault → ⊥ }
    ensures one_fault { (S : Parts) (f g : Fault) → IsRingFound S f → IsRingFound S g → f ≡ g }
{}

/// Objects have one surface with caps of groups or one first fault, and never both.
pub fn ring_surfaces_of_objects_are_one()
    ensures one { (F : FileParts) (b c : Built) → AreRingBuilt F b
        → AreRingBuilt F c
        → (surface_of b.mesh ≡ surface_of c.mesh) × (b.pairs ≡ c.pairs) × (b.cost ≡ c.cost) × (b.folded ≡ c.folded) }
    ensures none { (F : FileParts) (b : Built) (fault : Fault) → AreRingBuilt F b → IsRingFoundIn F fault → ⊥ }
    ensures one_fault { (F : FileParts) (f g : Fault) → IsRingFoundIn F f → IsRingFoundIn F g → f ≡ g }
{}

/// Sections, or objects, have at most one surface with one cap for each contour, and `surface` and `surface_all` of
/// `surface_core` build it.
pub fn plain_surfaces_are_one()
    ensures one { (S : Parts) (m n : Surface) → IsPlainSurface S m → IsPlainSurface S n → m ≡ n }
    ensures built { (S : Parts) (b : Built) → IsBuilt S b → IsPlainSurface S (surface_of b.mesh) }
    ensures all_one { (F : FileParts) (m n : Surface) → ArePlainSurfaces F m → ArePlainSurfaces F n → m ≡ n }
    ensures all_built { (F : FileParts) (b : Built) → AreBuilt F b → ArePlainSurfaces F (surface_of b.mesh) }
{}
