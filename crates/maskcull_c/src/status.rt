//! The numbers that calls answer.

/// All was drawn.
pub const DONE: u32 = 0;

/// The size, the near distance or the winding is none. Nothing was drawn.
pub const BAD_SETUP: u32 = 1;

/// These aren't tiles of such a screen. Nothing was drawn.
pub const BAD_TILES: u32 = 2;

/// A triangle names a vertex that isn't there. Nothing was drawn.
pub const BAD_INDEX: u32 = 3;

/// There is too little room for what was to be written. Nothing was.
pub const BAD_ROOM: u32 = 5;

/// Not hidden.
pub const VISIBLE: u32 = 16;

/// Hidden at each of its samples in the screen.
pub const OCCLUDED: u32 = 17;

/// Without a sample in the screen.
pub const OUTSIDE: u32 = 18;
