ghost use Rattle.dict_store_laws.specs.Recovers.{Meaning};

/// What the rows of a dictionary stand for.
pub trait Dictionary {
    /// The catalogs.
    ghost Catalog: { Type 0 };

    /// When rows stand for a catalog, and which files a catalog has.
    ghost meaning: { Meaning Catalog };
}
