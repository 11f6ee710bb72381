//! How much there may be of each thing. docs/REQUESTS.md has these in a table.

/// Replicas of a shard, at most.
pub const MOST_REPLICAS: u32 = 5;

/// Shards, at most.
pub const MOST_SHARDS: u32 = 64;

/// Nodes over the life of a cluster, at most: removed ones keep their numbers.
pub const MOST_NODES: usize = 16;

/// Namespaces, at most.
pub const MOST_NAMESPACES: usize = 8;

/// Bytes in the name of a node, an isolation group or a namespace, at most.
pub const MOST_NAME_BYTES: usize = 32;

/// Bytes in an identifier, at most.
pub const MOST_ID_BYTES: usize = 512;

/// Tags of an identifier, at most.
pub const MOST_TAGS: usize = 32;

/// Matchers of a match, at most.
pub const MOST_MATCHERS: usize = 16;

/// Fates in a `fates` line, at most.
pub const MOST_FATES: usize = 1_024;

/// Clients of a `par` line, at most. Their numbers are 1 to this; 0 is that of lines outside `par`.
pub const MOST_CLIENTS: usize = 8;

/// Requests of one client of a `par` line, at most.
pub const MOST_CLIENT_REQUESTS: usize = 64;

/// Workers of a `par` line, at most.
pub const MOST_WORKERS: usize = 4;

/// Requests of one worker of a `par` line, at most.
pub const MOST_WORKER_REQUESTS: usize = 16;

/// Late writes held until a `deliver`, at most. One beyond that is lost.
pub const MOST_LATE_WRITES: usize = 4_096;

/// Placement versions kept in one run, at most.
pub const MOST_VERSIONS: usize = 1_024;

/// Bytes of a request line without its newline, at most.
pub const MOST_LINE_BYTES: usize = 65_536;

/// An input has fewer bytes than this.
pub const INPUT_END: u64 = 1 << 32;

/// Moments, timestamps, versions and all numbers of a request without a closer bound are below this.
pub const TIME_END: u64 = 1 << 62;

/// Durations of a namespace, in the unit of its timestamps, are below this.
pub const DURATION_END: u64 = 1 << 40;

/// Seeds of the hash are below this.
pub const SEED_END: u64 = 1 << 32;

/// Bytes of a segment of a commit log: each has just so many.
pub const SEGMENT_BYTES: u64 = 65_536;

/// Numbers of segments, volumes, snapshots and placement versions are below this.
pub const NUMBER_END: u64 = 1 << 62;

/// Points in a page, at most.
pub const MOST_PAGE_POINTS: usize = 64;

/// Points held by one replica of a shard, at most.
pub const MOST_REPLICA_POINTS: u64 = 1 << 27;

/// Events in the list of a run, at most.
pub const MOST_EVENTS: u64 = 1 << 62;

/// Events that one request adds for each write of the life so far, and one more, at most.
pub const MOST_REQUEST_EVENTS: u64 = 16_384;
