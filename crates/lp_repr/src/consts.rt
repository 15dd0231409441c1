//! Names with a meaning in grammar files.

/// The associated type of token locations.
pub const LOCATION: &str = "Location";

/// The associated type of user errors.
pub const ERROR: &str = "Error";

/// The lifetime parameter of a grammar that has no token enum of its own.
pub const INPUT_LIFETIME: &str = "'input";

/// The parameter of a grammar that has no token enum of its own.
pub const INPUT_PARAMETER: &str = "input";

/// The attribute that asks for inlining.
pub const INLINE: &str = "inline";

/// The attribute that asks for conditional compilation.
pub const CFG: &str = "cfg";

/// The attribute that asks for LALR(1) tables.
pub const LALR: &str = "LALR";

/// The attribute that asks for table-driven code.
pub const TABLE_DRIVEN: &str = "table_driven";

/// The attribute that asks for recursive ascent code.
pub const RECURSIVE_ASCENT: &str = "recursive_ascent";

/// The attribute that asks for the code of a test of all back ends.
pub const TEST_ALL: &str = "test_all";
