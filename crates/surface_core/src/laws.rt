//! Laws on surfaces and objects.
ghost use Rattle.std.specs.Prelude.{◌≡◌, List};
ghost use Rattle.fku_types.specs.declared.fault.Fault.{Fault};
ghost use Rattle.section_core.specs.Parts.{Parts, FileParts};
ghost use Rattle.triangle_meshes.specs.Meshes.{surface_of};
ghost use Rattle.section_pairs.specs.Pairs.{PairParts};
ghost use Rattle.surface_core.specs.declared.surfaces.Built.{Built};
ghost use Rattle.surface_core.specs.Surfaces.{IsBuilt};
ghost use Rattle.surface_core.specs.Objects.{AreAllPairs, IsFoundIn, AreBuilt};

/// Sections have only one surface, with one number of pairs, one cost and one number of folded triangles.
pub fn surfaces_are_one()
    ensures { (S : Parts) (b c : Built) → IsBuilt S b
        → IsBuilt S c
        → (surface_of b.mesh ≡ surface_of c.mesh) × (b.pairs ≡ c.pairs) × (b.cost ≡ c.cost) × (b.folded ≡ c.folded) }
{}

/// Objects have one list of pairs each or one first fault, and never both.
pub fn pairs_of_objects_are_one()
    ensures one { (F : FileParts) (pss qss : List (List PairParts))
        → AreAllPairs F pss
        → AreAllPairs F qss
        → pss ≡ qss }
    ensures none { (F : FileParts) (pss : List (List PairParts)) (fault : Fault)
        → AreAllPairs F pss
        → IsFoundIn F fault
        → ⊥ }
    ensures one_fault { (F : FileParts) (f g : Fault) → IsFoundIn F f → IsFoundIn F g → f ≡ g }
{}

/// Objects have only one surface, with one number of pairs, one cost and one number of folded triangles.
pub fn surfaces_of_objects_are_one()
    ensures { (F : FileParts) (b c : Built) → AreBuilt F b
        → AreBuilt F c
        → (surface_of b.mesh ≡ surface_of c.mesh) × (b.pairs ≡ c.pairs) × (b.cost ≡ c.cost) × (b.folded ≡ c.folded) }
{}
