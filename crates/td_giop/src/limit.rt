//! How large messages may be.

/// How many bytes a server takes behind a header at most: 16 MiB.
pub const SERVER_LIMIT: u32 = 16_777_216;

/// How many bytes a client takes behind a header at most: 64 MiB.
pub const CLIENT_LIMIT: u32 = 67_108_864;
