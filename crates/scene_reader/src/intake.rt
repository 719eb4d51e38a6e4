//! Taking a known number of bytes from a part of a source: from its first bytes, of so many, or from all to its end.
ghost use Rattle.std.specs.Prelude.{◌≡◌, ◌≢◌, ◌+◌, ◌^◌, ◌<◌, ◌≤◌, length, true, false, Some, OnOk};
ghost use Rattle.cull_base.specs.Stream.{Rose, Takes, TakesInTurns};
ghost use Rattle.scene_reader.specs.Reading.{EndsWithin, Fetches, IsWithin};
ghost use Rattle.scene_reader.specs.Fault.{IsRefusal};

use crate::error::SceneError;
use cull_base::{Source, fill};

/// Whether a part ends behind so many bytes. Condition: it has as many.
pub fn is_end(part: Option<u32>, taken: u32) -> bool
    requires { IsWithin part taken }
    ensures whole { result ≡ true → part ≡ Some taken }
    ensures more { result ≡ false → IsWithin part (taken + 1) }
{
    match part {
        Some(most) => most == taken,
        None => false,
    }
}

// So many bytes came, of which more were needed.
fn truncated(need: u32, taken: u32, came: usize) -> SceneError
    requires { taken + came < 2 ^ 32 }
    ensures { result ≡ SceneError.Truncated need (taken + came) }
{
    SceneError::Truncated {
        need,
        have: taken + came as u32,
    }
}

// Takes the rest of a part, which is less than is needed. Truncated, or Read where the source failed.
fn fetch_rest<S: Source>(source: &mut S, rest: &mut [u8], need: u32, taken: u32) -> SceneError
    requires { taken + length rest.old < 2 ^ 32 }
    ensures short { IsRefusal result
        → EndsWithin (Some (taken + length rest.old)) (length rest.old + 1) need taken
        (S.says source.old) (S.says source.new) result }
    ensures read { result ≡ SceneError.Read → Rose (S.says source.old).faults (S.says source.new).faults }
    ensures faults_stay { (S.says source.old).faults ≤ (S.says source.new).faults }
    ensures turns { (S.says source.new).turns ≤ (S.says source.old).turns + length rest.old }
    ensures takes { TakesInTurns (length rest.old) (S.says source.old) (S.says source.new) }
{
    match fill(source, rest) {
        Err(_) => SceneError::Read,
        Ok(n) => truncated(need, taken, n),
    }
}

// As `fetch`, where the buffer ends within the part.
fn fetch_within<S: Source>(
    source: &mut S,
    buffer: &mut [u8],
    need: u32,
    taken: u32,
    _part: Option<u32>,
) -> Result<(), SceneError>
    requires room { taken + length buffer.old < 2 ^ 32 }
    requires within { IsWithin _part (taken + length buffer.old) }
    ensures taken { OnOk result (Takes (S.says source.old).left (S.says source.new).left buffer.new) }
    ensures fetches { Fetches _part (length buffer.old) need taken
        (S.says source.old) (S.says source.new) result }
{
    match fill(source, buffer) {
        Err(_) => Err(SceneError::Read),
        Ok(n) if n < buffer.len() => Err(truncated(need, taken, n)),
        Ok(_) => Ok(()),
    }
}

/// Fills the buffer from the part of which `taken` bytes came before. Err: Read where the source failed, Truncated
/// where the part or the source ended before, with the bytes that are needed in all and those that came in all. Conditions:
/// these fit 32 bits with a full buffer, and the part has as many as came before.
pub fn fetch<S: Source>(
    source: &mut S,
    buffer: &mut [u8],
    need: u32,
    taken: u32,
    part: Option<u32>,
) -> Result<(), SceneError>
    requires room { taken + length buffer.old < 2 ^ 32 }
    requires within { IsWithin part taken }
    ensures taken { OnOk result (Takes (S.says source.old).left (S.says source.new).left buffer.new) }
    ensures fetches { Fetches part (length buffer.old) need taken
        (S.says source.old) (S.says source.new) result }
{
    match part {
        Some(most) => {
            let left = (most - taken) as usize;
            if left < buffer.len() {
                return Err(fetch_rest(source, &mut buffer[..left], need, taken));
            }
            fetch_within(source, buffer, need, taken, part)
        }
        None => fetch_within(source, buffer, need, taken, part),
    }
}
