// The bounds of what comes in and of what is lent.

// What comes in.
pub const MAX_POLYGONS: usize = 512;

pub const MAX_RING: usize = 256;

pub const MAX_POINTS: usize = 4096;

pub const MAX_RECORDS: usize = 64;

// What is lent: the extraction's connections, the cut's coordinates and its ring lengths and sources, the channel's coordinates.
pub const CONNECTION_ROOM: usize = 4096;

pub const CUT_COORDINATES: usize = 8192;

pub const CUT_RINGS: usize = 512;

pub const CHANNEL_COORDINATES: usize = 4096;
