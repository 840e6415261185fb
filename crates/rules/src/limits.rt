// Document 01's limits; the definitions in Limits have the same names.
pub const PLUGINS: usize = 32;

pub const ROWS: usize = 1024;

// Declared keys.
pub const DEPENDENCY_KEYS: usize = 16;

pub const PROVISION_KEYS: usize = 15;

pub const REALM_ROWS: usize = 16;

// Ports of a finished dependency list.
pub const DEPENDENCIES: usize = 48;

// Dependencies, anchor and provisions of one plugin.
pub const PLUGIN_ROWS: usize = DEPENDENCIES + 1 + PROVISION_KEYS;
