//! Why there is no scene: the first fault of the bytes, a source that failed, or out of memory.
ghost use Rattle.std.specs.Prelude.{◌≡◌};
ghost use Rattle.scene_reader.specs.declared.error.SceneError.TheVariants.{Memory};

use std::alloc::{AllocError, AllocFailed};
use thiserror::Error;

/// What is wrong with a scene. A place is the number of an entry in its own table, from 0.
#[derive(Clone, Copy, Debug, PartialEq, Eq, Error)]
pub enum SceneError {
    #[error("the input has {have} bytes, and {need} are needed")]
    Truncated { need: u32, have: u32 },
    #[error("the input doesn't begin with MSOC, so it is no scene")]
    BadMagic,
    #[error("the scene has version {0}, and versions 1 and 2 are read")]
    BadVersion(u16),
    #[error("the screen is {0} by {1}: a width is a multiple of 8, a height one of 4, each at most 2048")]
    BadSize(u16, u16),
    #[error("the near distance is {0}: it is from 1 to 1024")]
    BadNear(u16),
    /// Byte 12 of the header.
    #[error("byte 12 is {0}: it is a winding, 0, 1 or 2, in version 1 and 0 in version 2")]
    BadWinding(u8),
    /// Byte 13 of a header of version 1.
    #[error("byte 13 is {0}: it is 0 in version 1")]
    BadReserved(u8),
    /// The counts by field: 0 frames, 1 vertices, 2 occluder triangles, 3 object triangles, 4 objects, 5 batches.
    #[error("count {field} of the header (0 frames, 1 vertices, 2 occluder triangles, 3 object triangles, 4 objects, \
         5 batches) is {value}, out of its limits")]
    BadCount { field: u8, value: u32 },
    #[error("bytes follow behind the scene")]
    Trailing,
    #[error("vertex {0} has a coordinate more than 16777216 away from 0")]
    BadVertex(u32),
    /// The tables: 0 occluder triangles, 1 object triangles.
    #[error("triangle {i} of table {table} (0 occluders, 1 objects) names a vertex that isn't there")]
    BadIndex { table: u8, i: u32 },
    #[error("object {0} is of an unknown kind")]
    BadKind(u32),
    #[error("object {0} has numbers that its kind doesn't allow")]
    BadObject(u32),
    #[error("camera {0} has an entry more than 16777216 away from 0")]
    BadCamera(u32),
    /// Byte 13 of a header of version 2, or 1 for wide parts of version 1.
    #[error("the grade is {0}: it is 0 or 1, and 0 in version 1")]
    BadGrade(u8),
    /// The first batch of no winding, or with which the counts sum to more than the occluder triangles; the number of
    /// batches where they sum to less; 0 where parts of version 1 aren't one batch of all triangles.
    #[error("batch {0} has an unknown winding, or with it the batches don't have as many triangles as the scene")]
    BadBatch(u32),
    /// The source's count of faults rose.
    #[error("the scene couldn't be read")]
    Read,
    #[error("there isn't enough memory for the scene")]
    Memory,
}

impl From<AllocError> for SceneError {
    ghost from_gives = { λ _ e. e ≡ Memory };

    fn from(_e: AllocError) -> SceneError {
        SceneError::Memory
    }
}

impl<T: Drop> From<AllocFailed<T>> for SceneError {
    ghost from_gives = { λ _ e. e ≡ Memory };

    fn from(_e: AllocFailed<T>) -> SceneError {
        SceneError::Memory
    }
}
