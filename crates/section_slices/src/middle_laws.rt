//! Laws on rounding and on densified sections.
ghost use Rattle.std.specs.Prelude.{◌≡◌, ℕ, ℤ, ◌*◌, ◌≤◌, pos, ◌+ℤ◌, ◌*ℤ◌, ◌≤ℤ◌};
ghost use Rattle.fku_types.specs.declared.fault.Fault.{Fault};
ghost use Rattle.section_core.specs.Parts.{Parts};
ghost use Rattle.section_slices.specs.Roundings.{rounded, IsClose};
ghost use Rattle.section_slices.specs.Densified.{IsDensified};
ghost use Rattle.section_slices.specs.Faults.{IsMiddleFault};

/// A law: a numerator x over d is rounded to the greatest integer not above (2x + d) / 2d, so at most one half away.
pub fn rounding_is_nearest()
    ensures not_above { (d : ℕ) (x : ℤ) → 1 ≤ d → (pos (2 * d) *ℤ rounded d x) ≤ℤ ((pos 2 *ℤ x) +ℤ pos d) }
    ensures greatest { (d : ℕ) (x y : ℤ) → 1 ≤ d → (pos (2 * d) *ℤ y) ≤ℤ ((pos 2 *ℤ x) +ℤ pos d) → y ≤ℤ rounded d x }
    ensures close { (d : ℕ) (x : ℤ) → 1 ≤ d → IsClose d x (rounded d x) }
{}

/// A law: sections have only one list of densified sections, which has at most one fault.
pub fn densified_is_one()
    ensures one { (S T U : Parts) → IsDensified S T → IsDensified S U → T ≡ U }
    ensures one_fault { (S : Parts) (f g : Fault) → IsMiddleFault S f → IsMiddleFault S g → f ≡ g }
{}
