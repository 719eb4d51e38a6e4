//! Places on the screen, by column and row.

/// A tile of 32 by 8 pixels, by its column and row among tiles.
#[derive(Clone, Copy, Debug, PartialEq, Eq)]
pub struct Tile {
    pub column: u16,
    pub row: u16,
}

/// A subtile of 8 by 4 pixels, by its column and row among subtiles.
#[derive(Clone, Copy, Debug, PartialEq, Eq)]
pub struct Sub {
    pub column: u16,
    pub row: u16,
}

/// A sample, by its pixel: it stands at (16px + 8, 16py + 8) in sixteenths of a pixel.
#[derive(Clone, Copy, Debug, PartialEq, Eq)]
pub struct Sample {
    pub px: u16,
    pub py: u16,
}
