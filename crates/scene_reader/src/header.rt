//! The header: the first 32 bytes, in version 2 36, with all that is told before the tables.
ghost use Rattle.std.specs.Prelude.{◌≡◌, ◌≤◌, nat_lt, None, Some, IsNone, IfOk, MatchResult};
ghost use Rattle.cull_base.specs.Screen.{IsSize};
ghost use Rattle.scene_reader.specs.Length.{header_length};
ghost use Rattle.scene_reader.specs.Fault.{fault_if, version_at, version_fault, start_fault, screen_fault, flags_fault};
ghost use Rattle.scene_reader.specs.Fault.{count_fault, counts_with, fields_fault};
ghost use Rattle.scene_reader.specs.Header.{AreFlagsOf, AreFieldsOf, AreCounts};

use crate::batches::winding_of;
use crate::error::SceneError;
use crate::numbers::{short_at, word_at};
use cull_base::{Grade, Size, Winding};

/// Bytes of a header up to where the versions part.
pub const HEADER: u32 = 32;

/// Bytes of a header of version 2.
const LONG_HEADER: u32 = 36;

/// How many entries each table has. Version 1 has no table of batches.
#[derive(Clone, Copy)]
pub struct Counts {
    pub frames: u32,
    pub vertices: u32,
    pub occluders: u32,
    pub batches: u32,
    pub object_tris: u32,
    pub objects: u32,
}

/// What two bytes of a header say: the winding of the one batch of version 1, and the grade.
#[derive(Clone, Copy)]
pub struct Flags {
    pub winding: Winding,
    pub grade: Grade,
}

/// An accepted header.
#[derive(Clone, Copy)]
pub struct Header {
    pub version: u16,
    pub width: u16,
    pub height: u16,
    pub near: u16,
    pub flags: Flags,
    pub counts: Counts,
}

/// Bytes of a header of this version.
pub fn header_length(version: u16) -> u32
    ensures value { result ≡ header_length version }
    ensures within { result ≤ 36 }
{
    if version == 1 {
        return HEADER;
    }
    LONG_HEADER
}

/// What is wrong with a version.
pub fn version_fault(version: u16) -> Option<SceneError>
    ensures value { result ≡ version_fault version }
    ensures valid { IsNone result → (1 ≤ version) × (version ≤ 2) }
{
    if version == 0 || 2 < version {
        return Some(SceneError::BadVersion(version));
    }
    None
}

/// The version of a header, or the first fault up to there.
#[tactic(auto, unfolding(crate::specs::Fault::start_fault))]
pub fn version_of(bytes: &[u8; 32]) -> Result<u16, SceneError>
    ensures value { MatchResult result (λ v. v ≡ version_at bytes.now) (λ e. start_fault bytes.now ≡ Some e) }
    ensures start { IfOk result (λ v. start_fault bytes.now ≡ None) }
    ensures valid { IfOk result (λ v. (1 ≤ v) × (v ≤ 2)) }
{
    if !bytes.starts_with(b"MSOC") {
        return Err(SceneError::BadMagic);
    }
    let version = short_at(bytes, 4);
    if let Some(fault) = version_fault(version) {
        return Err(fault);
    }
    Ok(version)
}

/// What is wrong with the size or the near distance.
pub fn screen_fault(width: u16, height: u16, near: u16) -> Option<SceneError>
    ensures value { result ≡ screen_fault width height near }
    ensures valid { IsNone result → IsSize width height × (1 ≤ near) × (near ≤ 1024) }
{
    if Size::new(width, height).is_none() {
        return Some(SceneError::BadSize(width, height));
    }
    if near == 0 || 1024 < near {
        return Some(SceneError::BadNear(near));
    }
    None
}

// The winding of the one batch of version 1, whose second byte is 0.
fn flags_of_first(winding: u8, reserved: u8) -> Result<Flags, SceneError>
    ensures { MatchResult result
        (λ f. AreFlagsOf winding reserved f × (flags_fault 1 winding reserved ≡ None))
        (λ e. flags_fault 1 winding reserved ≡ Some e) }
{
    let Some(first) = winding_of(winding) else {
        return Err(SceneError::BadWinding(winding));
    };
    if reserved != 0 {
        return Err(SceneError::BadReserved(reserved));
    }
    Ok(Flags {
        winding: first,
        grade: Grade::Narrow,
    })
}

// The grade of version 2, whose batches have the windings.
fn flags_of_second(winding: u8, grade: u8) -> Result<Flags, SceneError>
    ensures { MatchResult result (λ f. AreFlagsOf winding grade f × (flags_fault 2 winding grade ≡ None))
        (λ e. flags_fault 2 winding grade ≡ Some e) }
{
    if winding != 0 {
        return Err(SceneError::BadWinding(winding));
    }
    let grade = match grade {
        0 => Grade::Narrow,
        1 => Grade::Wide,
        code => return Err(SceneError::BadGrade(code)),
    };
    Ok(Flags {
        winding: Winding::Both,
        grade,
    })
}

// What two bytes of a header of this version say, or the first fault in them.
fn flags_of(version: u16, winding: u8, grade: u8) -> Result<Flags, SceneError>
    requires some { 1 ≤ version }
    requires known { version ≤ 2 }
    ensures { MatchResult result
        (λ f. AreFlagsOf winding grade f × (flags_fault version winding grade ≡ None))
        (λ e. flags_fault version winding grade ≡ Some e) }
{
    if version == 1 {
        return flags_of_first(winding, grade);
    }
    flags_of_second(winding, grade)
}

// The fault of a count that is above its limit.
fn limit_fault(field: u8, value: u32, limit: u32) -> Option<SceneError>
    ensures { result ≡ fault_if (nat_lt limit value) (SceneError.BadCount field value) }
{
    if limit < value {
        return Some(SceneError::BadCount { field, value });
    }
    None
}

/// The first count that is out of its limits.
pub fn count_fault(counts: &Counts) -> Option<SceneError>
    ensures value { result ≡ count_fault counts.now }
    ensures valid { IsNone result → AreCounts counts.now }
{
    if counts.frames == 0 {
        return Some(SceneError::BadCount { field: 0, value: 0 });
    }
    limit_fault(0, counts.frames, 256)
        .or(limit_fault(1, counts.vertices, 262_144))
        .or(limit_fault(2, counts.occluders, 65_536))
        .or(limit_fault(3, counts.object_tris, 262_144))
        .or(limit_fault(4, counts.objects, 65_536))
        .or(limit_fault(5, counts.batches, 4096))
}

/// What the first 32 bytes of a header say that has this version and so many batches, or the first fault in them.
#[tactic(auto, unfolding(crate::specs::Fault::fields_fault))]
pub fn header_of(bytes: &[u8; 32], version: u16, batches: u32) -> Result<Header, SceneError>
    requires version { version ≡ version_at bytes.now }
    requires some { 1 ≤ version }
    requires known { version ≤ 2 }
    ensures value { MatchResult result (λ h. AreFieldsOf bytes.now batches h)
        (λ e. fields_fault bytes.now batches ≡ Some e) }
    ensures counts { IfOk result (λ h. AreCounts h.counts) }
{
    let (width, height, near) = (short_at(bytes, 6), short_at(bytes, 8), short_at(bytes, 10));
    if let Some(fault) = screen_fault(width, height, near) {
        return Err(fault);
    }
    let flags = match flags_of(version, bytes[12], bytes[13]) {
        Ok(flags) => flags,
        Err(fault) => return Err(fault),
    };
    let counts = counts_of(bytes, batches);
    if let Some(fault) = count_fault(&counts) {
        return Err(fault);
    }
    Ok(Header {
        version,
        width,
        height,
        near,
        flags,
        counts,
    })
}

fn counts_of(bytes: &[u8; 32], batches: u32) -> Counts
    ensures { result ≡ counts_with batches bytes.now }
{
    Counts {
        frames: u32::from(short_at(bytes, 14)),
        vertices: word_at(bytes, 16),
        occluders: word_at(bytes, 20),
        batches,
        object_tris: word_at(bytes, 24),
        objects: word_at(bytes, 28),
    }
}
