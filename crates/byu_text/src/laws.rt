//! Laws: different numbers have different fields.
ghost use Rattle.std.specs.Prelude.{◌≡◌, ℤ, length};
ghost use Rattle.fku_types.specs.Points.{IsCoordinate};
ghost use Rattle.byu_text.specs.Fields.{FitsField, number_field, coordinate_field};

/// Each coordinate has one text, of 12 bytes: coordinates with the same text are equal.
pub fn coordinates_have_one_text()
    ensures columns { (z : ℤ) → IsCoordinate z → length (coordinate_field z) ≡ 12 }
    ensures one { (y z : ℤ) → IsCoordinate y → IsCoordinate z → coordinate_field y ≡ coordinate_field z → y ≡ z }
{}

/// Each integer from -9,999,999 to 99,999,999 has one text, of 8 bytes: integers with the same text are equal.
pub fn numbers_have_one_text()
    ensures columns { (z : ℤ) → FitsField z → length (number_field z) ≡ 8 }
    ensures one { (y z : ℤ) → FitsField y
        → FitsField z
        → number_field y ≡ number_field z
        → y ≡ z }
{}
