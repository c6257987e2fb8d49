ghost use Rattle.std.specs.Prelude.{◌≡◌, ◌++◌, length};
ghost use Rattle.dd_names.specs.declared.object_name.ObjName.{ObjName};
ghost use Rattle.dd_definitions.specs.declared.parts.TableParts.{TableParts};
ghost use Rattle.dd_definitions.specs.declared.view_parts.ViewParts.{ViewParts};
ghost use Rattle.dd_catalog.specs.Catalog.{Catalog, all_of};
ghost use Rattle.dd_catalog.specs.Sights.{ViewThere};
ghost use Rattle.dd_catalog.specs.WalkLaws.{Look};
ghost use Rattle.dd_catalog.specs.Walks.{fine, run};
ghost use Rattle.rules_outcome.specs.Choices.{Lists};
ghost use Rattle.sql_types.specs.declared.listing.Listing.{Listing};
ghost use Rattle.show_text.specs.Views.{query_text, view_text};
ghost use Rattle.info_schema.specs.declared.tables.InfoTable.{InfoTable};
ghost use Rattle.info_schema.specs.declared.tables.InfoTable.TheVariants as tables;
ghost use Rattle.info_schema.specs.Listings.{listed, objects_listing};
ghost use Rattle.info_schema.specs.Tables.{base_table_rows};
ghost use Rattle.rules_views.specs.Shows.{view_columns};
ghost use Rattle.info_schema_laws.specs.Whole.{all_rows, before_query};

/// Over a whole catalog a table of INFORMATION_SCHEMA has the rows of each object of each schema, in byte order, and no other.
/// It does nothing when it runs.
pub fn listings_are_whole()
    ensures rows { (cat : Catalog) (table : InfoTable) → run (all_of cat) (objects_listing table) ≡ fine (Lists (listed table (all_rows cat table))) }
{}

/// COLUMNS has a row a column of a base table, SHOW COLUMNS of a view has a row an output, and the text of SHOW CREATE VIEW ends
/// in what VIEWS shows. It does nothing when it runs.
pub fn columns_have_rows()
    ensures tables { (parts : TableParts) → length (base_table_rows tables.Columns parts) ≡ length parts.columns }
    ensures views { (look : Look) (object : ObjName) (parts : ViewParts) (listing : Listing) → run look (view_columns object (ViewThere parts)) ≡ fine (Lists listing) → length listing.rows ≡ length parts.outputs }
    ensures texts { (parts : ViewParts) → view_text parts ≡ before_query parts ++ query_text parts }
{}
