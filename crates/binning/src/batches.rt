//! A frame list cut into batches.
ghost use Rattle.std.specs.Prelude.{◌≡◌, ◌≤◌};
ghost use Rattle.binning.specs.Parts.{batch_size_of, batch_count_of};

/// The most batches of a frame.
const MOST_BATCHES: u32 = 2048;

/// The size of a batch: as given, or greater where that would make more than 2048 batches. Conditions: the given size is
/// at least 1, and the length at most 131,072.
pub fn batch_size(len: u32, asked: u32) -> u32
    requires asked { 1 ≤ asked }
    requires len { len ≤ 131072 }
    ensures value { result ≡ batch_size_of len asked }
    ensures some { 1 ≤ result }
    ensures few { batch_count_of len result ≤ 2048 }
{
    asked.max(len.div_ceil(MOST_BATCHES))
}

/// How many batches of a size a list makes, the last maybe cut. Conditions: the size is at least 1, and the length at
/// most 131,072.
pub fn batch_count(len: u32, size: u32) -> u32
    requires size { 1 ≤ size }
    requires len { len ≤ 131072 }
    ensures { result ≡ batch_count_of len size }
{
    len.div_ceil(size)
}
