//! A law on slices.
ghost use Rattle.std.specs.Prelude.{◌≡◌, ℤ, map};
ghost use Rattle.fku_types.specs.declared.fault.Fault.{Fault};
ghost use Rattle.section_core.specs.Parts.{Parts};
ghost use Rattle.section_core.specs.Laws.{AreRising, heights};
ghost use Rattle.section_slices.specs.declared.slices.SliceLoops.{SliceLoops};
ghost use Rattle.section_slices.specs.Slices.{IsSlice, IsSliceFault};

/// At a height, sections of rising heights have one slice or one fault, and never both.
pub fn slices_are_one()
    ensures one { (S : Parts) → AreRising (heights S.sections)
        → (z : ℤ) (s t : SliceLoops) → IsSlice S z s
        → IsSlice S z t
        → (s.den ≡ t.den) × (map (λ l. l.items) s.loops.items ≡ map (λ l. l.items) t.loops.items) }
    ensures none { (S : Parts) → AreRising (heights S.sections)
        → (z : ℤ) (s : SliceLoops) (fault : Fault) → IsSlice S z s
        → IsSliceFault S z fault
        → ⊥ }
    ensures one_fault { (S : Parts) (z : ℤ) (f g : Fault) → IsSliceFault S z f → IsSliceFault S z g → f ≡ g }
{}
