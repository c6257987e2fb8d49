// Tests of scripts over whole catalogs.
use crate::runs::{has_ended, run_on};
use dd_run::Status;
use std::test::Fail;

/// Inputs with what they print and how many statements they have.
const SCRIPTS: [(&str, &str, usize); 10] = [
    // A table is shown as it is kept.
    (
        "session a\nCREATE DATABASE d; USE d; CREATE TABLE t (id INT(11) PRIMARY KEY, n TINYINT(1), a VARCHAR(20) DEFAULT 'x'); SHOW CREATE TABLE t;",
        "-- session a\nOK\nOK\nOK\nTable\tCreate Table\nt\tCREATE TABLE `t` (\\n  `id` int NOT NULL,\\n  `n` tinyint(1) DEFAULT NULL,\\n  `a` varchar(20) DEFAULT 'x',\\n  PRIMARY KEY (`id`)\\n) ENGINE=InnoDB DEFAULT CHARSET=utf8mb4 COLLATE=utf8mb4_0900_ai_ci\n",
        4,
    ),
    // The text shown makes the same table.
    (
        "session a\nCREATE DATABASE d; USE d; CREATE TABLE `u` (\n  `id` int NOT NULL,\n  `n` tinyint(1) DEFAULT NULL,\n  `a` varchar(20) DEFAULT 'x',\n  PRIMARY KEY (`id`)\n) ENGINE=InnoDB DEFAULT CHARSET=utf8mb4 COLLATE=utf8mb4_0900_ai_ci; SHOW CREATE TABLE u;",
        "-- session a\nOK\nOK\nOK\nTable\tCreate Table\nu\tCREATE TABLE `u` (\\n  `id` int NOT NULL,\\n  `n` tinyint(1) DEFAULT NULL,\\n  `a` varchar(20) DEFAULT 'x',\\n  PRIMARY KEY (`id`)\\n) ENGINE=InnoDB DEFAULT CHARSET=utf8mb4 COLLATE=utf8mb4_0900_ai_ci\n",
        4,
    ),
    // Greatest lengths.
    (
        "session a\nCREATE DATABASE d; USE d; CREATE TABLE aaaaaaaaaaaaaaaaaaaaaaaaaaaaaaaaaaaaaaaaaaaaaaaaaaaaaaaaaaaaaaaa (v VARCHAR(16383)); CREATE TABLE aaaaaaaaaaaaaaaaaaaaaaaaaaaaaaaaaaaaaaaaaaaaaaaaaaaaaaaaaaaaaaaaa (v VARCHAR(16383)); CREATE TABLE w (v VARCHAR(16384));",
        "-- session a\nOK\nOK\nOK\nERROR 1059 (42000): Identifier name 'aaaaaaaaaaaaaaaaaaaaaaaaaaaaaaaaaaaaaaaaaaaaaaaaaaaaaaaaaaaaaaaaa' is too long\nERROR 1074 (42000): Column length too big for column 'v' (max = 16383); use BLOB or TEXT instead\n",
        5,
    ),
    // A list with an unknown table drops none.
    (
        "session a\nCREATE DATABASE d; USE d; CREATE TABLE t1 (i INT); DROP TABLE t1, t2; SHOW TABLES;",
        "-- session a\nOK\nOK\nOK\nERROR 1051 (42S02): Unknown table 'd.t2'\nTables_in_d\nt1\n",
        5,
    ),
    // Columns have the same name in both cases, tables have not.
    (
        "session a\nCREATE DATABASE d; USE d; CREATE TABLE t (a INT, A INT); CREATE TABLE T (a INT); CREATE TABLE t (a INT); SHOW TABLES;",
        "-- session a\nOK\nOK\nERROR 1060 (42S21): Duplicate column name 'A'\nOK\nOK\nTables_in_d\nT\nt\n",
        6,
    ),
    // A parent is not dropped without its children, and a table that is its own parent is.
    (
        "session a\nCREATE DATABASE d; USE d; CREATE TABLE p (id INT PRIMARY KEY); CREATE TABLE c (id INT PRIMARY KEY, p INT, FOREIGN KEY (p) REFERENCES p (id)); DROP TABLE p; DROP TABLE p, c; CREATE TABLE s (id INT PRIMARY KEY, up INT, FOREIGN KEY (up) REFERENCES s (id)); DROP TABLE s;",
        "-- session a\nOK\nOK\nOK\nOK\nERROR 3730 (HY000): Cannot drop table 'p' referenced by a foreign key constraint 'c_ibfk_1' on table 'c'.\nOK\nOK\nOK\n",
        8,
    ),
    // Two tables change their names, and a generated constraint with them.
    (
        "session a\nCREATE DATABASE d; USE d; CREATE TABLE p (id INT PRIMARY KEY); CREATE TABLE a (i INT, FOREIGN KEY (i) REFERENCES p (id)); CREATE TABLE b (j INT); RENAME TABLE a TO x, b TO a, x TO b; SHOW CREATE TABLE b; DROP TABLE p;",
        "-- session a\nOK\nOK\nOK\nOK\nOK\nOK\nTable\tCreate Table\nb\tCREATE TABLE `b` (\\n  `i` int DEFAULT NULL,\\n  KEY `i` (`i`),\\n  CONSTRAINT `b_ibfk_1` FOREIGN KEY (`i`) REFERENCES `p` (`id`)\\n) ENGINE=InnoDB DEFAULT CHARSET=utf8mb4 COLLATE=utf8mb4_0900_ai_ci\nERROR 3730 (HY000): Cannot drop table 'p' referenced by a foreign key constraint 'b_ibfk_1' on table 'b'.\n",
        8,
    ),
    // The current schema goes with its schema.
    (
        "session a\nCREATE DATABASE d; USE d; DROP DATABASE d; CREATE TABLE t (i INT);",
        "-- session a\nOK\nOK\nOK\nERROR 1046 (3D000): No database selected\n",
        4,
    ),
    // The text of a schema makes one.
    (
        "session a\nCREATE DATABASE d; USE d; CREATE DATABASE e e; SHOW CREATE DATABASE d; CREATE DATABASE `e` /*!40100 DEFAULT CHARACTER SET utf8mb4 COLLATE utf8mb4_0900_ai_ci */ /*!80016 DEFAULT ENCRYPTION='N' */; USE e; SHOW TABLES; SHOW DATABASES;",
        "-- session a\nOK\nOK\nERROR 1064 (42000): You have an error in your SQL syntax at byte 18\nDatabase\tCreate Database\nd\tCREATE DATABASE `d` /*!40100 DEFAULT CHARACTER SET utf8mb4 COLLATE utf8mb4_0900_ai_ci */ /*!80016 DEFAULT ENCRYPTION='N' */\nOK\nOK\nTables_in_e\nDatabase\nd\ne\n",
        8,
    ),
    // A parent of another schema is named with it.
    (
        "session a\nCREATE DATABASE d; USE d; CREATE DATABASE e; CREATE TABLE p (id INT PRIMARY KEY); CREATE TABLE e.c (i INT, CONSTRAINT k FOREIGN KEY (i) REFERENCES d.p (id)); SHOW CREATE TABLE e.c; DROP DATABASE d; DROP DATABASE e; DROP DATABASE d;",
        "-- session a\nOK\nOK\nOK\nOK\nOK\nTable\tCreate Table\nc\tCREATE TABLE `c` (\\n  `i` int DEFAULT NULL,\\n  KEY `k` (`i`),\\n  CONSTRAINT `k` FOREIGN KEY (`i`) REFERENCES `d`.`p` (`id`)\\n) ENGINE=InnoDB DEFAULT CHARSET=utf8mb4 COLLATE=utf8mb4_0900_ai_ci\nERROR 3730 (HY000): Cannot drop table 'p' referenced by a foreign key constraint 'k' on table 'c'.\nOK\nOK\n",
        9,
    ),
];

#[test]
fn each_script_prints_what_a_user_of_the_server_expects(rt: HostRuntime) -> Result<(), Fail> {
    for (input, output, entries) in &SCRIPTS {
        let outcome = run_on(rt.alloc(), &["run"], input, &[], &[])?;
        assert!(rt;
            has_ended(&outcome, Status::Ok, output, *entries),
            "{input}"
        );
    }
    Ok(())
}
