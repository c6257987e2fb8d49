// The words that are no names, and the names that no schema of a user has.
ghost use Rattle.std.specs.Prelude.{◌≡◌};
ghost use Rattle.std.specs.List.{list_any};
ghost use Rattle.dd_names.specs.Names.{same};
ghost use Rattle.dd_names.specs.Reserved.{is_reserved, is_system_schema};

/// The words that are no names unless they are quoted (MySQL 8.0 Reference Manual, 9.3, as far as the grammar uses them).
pub const RESERVED: [&str; 56] = [
    "ADD",
    "ALTER",
    "AS",
    "ASC",
    "BIGINT",
    "CASCADE",
    "CHANGE",
    "CHAR",
    "CHARACTER",
    "COLLATE",
    "COLUMN",
    "CONSTRAINT",
    "CREATE",
    "DATABASE",
    "DATABASES",
    "DEFAULT",
    "DELETE",
    "DESC",
    "DROP",
    "EXISTS",
    "FORCE",
    "FOREIGN",
    "FROM",
    "IF",
    "IN",
    "INDEX",
    "INT",
    "INTEGER",
    "KEY",
    "KEYS",
    "LIKE",
    "MEDIUMINT",
    "NOT",
    "NULL",
    "ON",
    "PRIMARY",
    "REFERENCES",
    "RENAME",
    "RESTRICT",
    "SCHEMA",
    "SCHEMAS",
    "SELECT",
    "SET",
    "SHOW",
    "SMALLINT",
    "SQL",
    "TABLE",
    "TINYINT",
    "TO",
    "UNIQUE",
    "UNSIGNED",
    "UPDATE",
    "USE",
    "USING",
    "VARCHAR",
    "WHERE",
];

/// The schemas that the server has for itself.
pub const SYSTEM_SCHEMAS: [&str; 4] = ["information_schema", "mysql", "performance_schema", "sys"];

fn is_among(word: &str, words: &[&str]) -> bool
    ensures { result ≡ list_any (λ other. same word.now other.now) words.now }
{
    words.iter().any(|other| word.eq_ignore_ascii_case(other))
}

/// Whether the word, in any case, is no name unless it is quoted.
#[tactic(auto, using(crate::proofs::Words::among_reserved))]
pub fn is_reserved(word: &str) -> bool
    ensures { result ≡ is_reserved word.now }
{
    is_among(word, &RESERVED)
}

/// Whether the name, in any case, is that of a schema that the server has for itself.
#[tactic(auto, using(crate::proofs::Words::among_system))]
pub fn is_system_schema(name: &str) -> bool
    ensures { result ≡ is_system_schema name.now }
{
    is_among(name, &SYSTEM_SCHEMAS)
}
