ghost use Rattle.std.specs.Prelude.{◌≡◌, ℕ, List, ◌++◌, map, Some};
ghost use Rattle.std.specs.List.{AllByRecursion};
ghost use Rattle.row_fields.specs.declared.fields.Field.{Field};
ghost use Rattle.row_fields.specs.Fields.{kind_of, fields_bytes, Fits};
ghost use Rattle.row_fields.specs.Reading.{fields_at, all_at};

/// Fields that have room read as they were written, whatever stands behind them (`again`, and `all` where nothing does). So
/// fields of the same kinds that begin the same bytes are the same, and so is what stands behind them (`same`). It does
/// nothing when it runs.
pub fn bytes_determine_fields()
    ensures again { (fields : List Field) (rest : List ℕ) → AllByRecursion Fits fields → fields_at (map kind_of fields) (fields_bytes fields ++ rest) ≡ Some (fields, rest) }
    ensures all { (fields : List Field) → AllByRecursion Fits fields → all_at (map kind_of fields) (fields_bytes fields) ≡ Some fields }
    ensures same { (fields others : List Field) (rest more : List ℕ) → map kind_of fields ≡ map kind_of others → AllByRecursion Fits fields → AllByRecursion Fits others
        → fields_bytes fields ++ rest ≡ fields_bytes others ++ more → (fields ≡ others) × (rest ≡ more) }
{}
