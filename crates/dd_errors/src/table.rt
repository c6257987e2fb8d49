// The table of errors, in four parts by their numbers. Numbers, states and texts are chosen after MySQL's (MySQL 8.0 Error
// Message Reference, chapter 2).

/// A row of the table: an error's number, its SQLSTATE and its text, in which each `%` is the place of an argument.
pub type ErrorRow = (u16, [u8; 5], &'static str);

/// The rows from 1007 to 1063.
pub const FROM_1007: [ErrorRow; 12] = [
    (
        1007,
        *b"HY000",
        "Can't create database '%'; database exists",
    ),
    (
        1008,
        *b"HY000",
        "Can't drop database '%'; database doesn't exist",
    ),
    (1046, *b"3D000", "No database selected"),
    (1049, *b"42000", "Unknown database '%'"),
    (1050, *b"42S01", "Table '%' already exists"),
    (1051, *b"42S02", "Unknown table '%'"),
    (1052, *b"23000", "Column '%' in field list is ambiguous"),
    (1054, *b"42S22", "Unknown column '%' in '%'"),
    (1059, *b"42000", "Identifier name '%' is too long"),
    (1060, *b"42S21", "Duplicate column name '%'"),
    (1061, *b"42000", "Duplicate key name '%'"),
    (1063, *b"42000", "Incorrect column specifier for column '%'"),
];

/// The rows from 1064 to 1109.
pub const FROM_1064: [ErrorRow; 12] = [
    (
        1064,
        *b"42000",
        "You have an error in your SQL syntax at byte %",
    ),
    (1066, *b"42000", "Not unique table/alias: '%'"),
    (1067, *b"42000", "Invalid default value for '%'"),
    (1068, *b"42000", "Multiple primary key defined"),
    (
        1069,
        *b"42000",
        "Too many keys specified; max 64 keys allowed",
    ),
    (
        1070,
        *b"42000",
        "Too many key parts specified; max 16 parts allowed",
    ),
    (1072, *b"42000", "Key column '%' doesn't exist in table"),
    (
        1074,
        *b"42000",
        "Column length too big for column '%' (max = %); use BLOB or TEXT instead",
    ),
    (
        1075,
        *b"42000",
        "Incorrect table definition; there can be only one auto column and it must be defined as a key",
    ),
    (
        1090,
        *b"42000",
        "You can't delete all columns with ALTER TABLE; use DROP TABLE instead",
    ),
    (
        1091,
        *b"42000",
        "Can't DROP '%'; check that column/key exists",
    ),
    (1109, *b"42S02", "Unknown table '%' in information_schema"),
];

/// The rows from 1113 to 1553.
pub const FROM_1113: [ErrorRow; 12] = [
    (1113, *b"42000", "A table must have at least 1 column"),
    (1117, *b"HY000", "Too many columns"),
    (1146, *b"42S02", "Table '%.%' doesn't exist"),
    (
        1171,
        *b"42000",
        "All parts of a PRIMARY KEY must be NOT NULL; if you need NULL in a key, use UNIQUE instead",
    ),
    (
        1205,
        *b"HY000",
        "Lock wait timeout exceeded; try restarting transaction",
    ),
    (
        1239,
        *b"42000",
        "Incorrect foreign key definition for '%': Key reference and table reference don't match",
    ),
    (1280, *b"42000", "Incorrect index name '%'"),
    (1347, *b"HY000", "'%.%' is not %"),
    (
        1353,
        *b"HY000",
        "In definition of view, derived table or common table expression, SELECT list and column names list have different column counts",
    ),
    (
        1356,
        *b"HY000",
        "View '%.%' references invalid table(s) or column(s) or function(s) or definer/invoker of view lack rights to use them",
    ),
    (
        1450,
        *b"HY000",
        "Changing schema from '%' to '%' is not allowed.",
    ),
    (
        1553,
        *b"HY000",
        "Cannot drop index '%': needed in a foreign key constraint",
    ),
];

/// The rows from 1701 to 9003.
pub const FROM_1701: [ErrorRow; 12] = [
    (
        1701,
        *b"42000",
        "Cannot truncate a table referenced in a foreign key constraint (`%`.`%`, CONSTRAINT `%`)",
    ),
    (
        1822,
        *b"HY000",
        "Failed to add the foreign key constraint. Missing index for constraint '%' in the referenced table '%'",
    ),
    (1824, *b"HY000", "Failed to open the referenced table '%'"),
    (1826, *b"HY000", "Duplicate foreign key constraint name '%'"),
    (
        1828,
        *b"HY000",
        "Cannot drop column '%': needed in a foreign key constraint '%'",
    ),
    (
        1829,
        *b"HY000",
        "Cannot drop column '%': needed in a foreign key constraint '%' of table '%'",
    ),
    (
        1830,
        *b"HY000",
        "Column '%' cannot be NOT NULL: needed in a foreign key constraint '%' SET NULL",
    ),
    (
        3730,
        *b"HY000",
        "Cannot drop table '%' referenced by a foreign key constraint '%' on table '%'.",
    ),
    (
        3780,
        *b"HY000",
        "Referencing column '%' and referenced column '%' in foreign key constraint '%' are incompatible.",
    ),
    (9001, *b"HY000", "Limit of % exceeded"),
    (9002, *b"HY000", "No identifier is left"),
    (9003, *b"HY000", "View nesting is too deep"),
];
