//! Reading a scene from a source or from a part of it, in pieces of any size.
ghost use Rattle.std.specs.Prelude.{◌≡◌, ◌≢◌, ◌+◌, ◌≤◌, Some, None, IfOk, IfErr, OnOk, IsErrOf};
ghost use Rattle.cull_base.specs.Stream.{Rose, TakesInTurns};
ghost use Rattle.scene_reader.specs.Layout.{IsScene};
ghost use Rattle.scene_reader.specs.Fault.{IsRefusal};
ghost use Rattle.scene_reader.specs.Header.{AreCounts};
ghost use Rattle.scene_reader.specs.Length.{header_length, scene_length, greatest_length};
ghost use Rattle.scene_reader.specs.Reading.{TakesEnd, TakesHeader, TakesCount, TakesParts, TakesLayout, TakesPart};
ghost use Rattle.scene_reader.specs.Reading.{EndsWithin, FetchesTables, IsWithin, Reads, first_bytes};
ghost use Rattle.scene_reader.specs.Reading.{ReadsPart, IsOnlyScene, IsNoScene, IsTrailing, RefusesPart};
ghost use Rattle.scene_reader.specs.Reading.{HasFirstFault, StopsAtHeader, StopsWithin, TakesWithin};

use crate::batches::{BATCH, read_batches};
use crate::checks::tables_fault;
use crate::error::SceneError;
use crate::header::{HEADER, Header, header_length, header_of, version_of};
use crate::intake::{fetch, is_end};
use crate::objects::{OBJECT, read_objects};
use crate::parts::SceneParts;
use crate::scene::Scene;
use crate::tables::{CAMERA, TRIANGLE, VERTEX, read_table};
use cull_base::{Source, fill};
use std::alloc::Global;

/// Parts as they were read, how many bytes they have with their header, and the first faults among their batches and
/// among their objects.
#[derive(Drop)]
struct Draft {
    parts: SceneParts,
    length: u32,
    batches: Option<SceneError>,
    objects: Option<SceneError>,
}

/// Reads the number of batches, which only a header of version 2 has.
fn read_batch_count<S: Source>(
    source: &mut S,
    version: u16,
    part: Option<u32>,
) -> Result<u32, SceneError>
    requires { IsWithin part 32 }
    ensures taken { IfOk result (λ n. TakesCount version n (S.says source.old) (S.says source.new)) }
    ensures within { OnOk result (IsWithin part (header_length version)) }
    ensures short { IfErr result (λ e. IsRefusal e
        → EndsWithin part 4 (header_length version) 32 (S.says source.old) (S.says source.new) e) }
    ensures reads { Reads part 32 4 (S.says source.old) (S.says source.new) result }
    ensures second { IfErr result (λ _. version ≢ 1) }
{
    if version == 1 {
        return Ok(0);
    }
    let mut bytes = [0; 4];
    fetch(source, &mut bytes, header_length(version), HEADER, part)?;
    Ok(u32::from_le_bytes(bytes))
}

/// Reads a header: the 32 bytes that both versions have, and where these say version 2 four more.
fn read_header<S: Source>(source: &mut S, part: Option<u32>) -> Result<Header, SceneError>
    ensures taken { IfOk result (λ h. TakesHeader (S.says source.old) (S.says source.new) h) }
    ensures counts { IfOk result (λ h. AreCounts h.counts) }
    ensures known { IfOk result (λ h. (1 ≤ h.version) × (h.version ≤ 2)) }
    ensures within { IfOk result (λ h. IsWithin part (header_length h.version)) }
    ensures refused { IfErr result (λ e. IsRefusal e
        → RefusesPart part (S.says source.old).left (S.says source.new).left e) }
    ensures reads { Reads part 0 36 (S.says source.old) (S.says source.new) result }
{
    let mut bytes = [0; 32];
    fetch(source, &mut bytes, HEADER, 0, part)?;
    let version = version_of(&bytes)?;
    let batches = read_batch_count(source, version, part)?;
    header_of(&bytes, version, batches)
}

/// Reads the tables that a header announces.
fn read_parts<S: Source>(
    alloc: Global,
    source: &mut S,
    header: Header,
    part: Option<u32>,
) -> Result<Draft, SceneError>
    requires counts { AreCounts header.counts }
    requires none { header.version ≡ 1 → header.counts.batches ≡ 0 }
    requires known { (1 ≤ header.version) × (header.version ≤ 2) }
    requires within { IsWithin part (header_length header.version) }
    ensures taken { IfOk result (λ d.
        TakesParts header (S.says source.old) (S.says source.new) d.parts d.batches d.objects) }
    ensures length { IfOk result (λ d. d.length ≡ scene_length header.version header.counts) }
    ensures fetches { FetchesTables part header.version header.counts
        (S.says source.old) (S.says source.new) result }
{
    let counts = header.counts;
    let vertices_at = header_length(header.version);
    let occluders_at = vertices_at + VERTEX * counts.vertices;
    let batches_at = occluders_at + TRIANGLE * counts.occluders;
    let triangles_at = batches_at + BATCH * counts.batches;
    let objects_at = triangles_at + TRIANGLE * counts.object_tris;
    let cameras_at = objects_at + OBJECT * counts.objects;
    let need = cameras_at + CAMERA * counts.frames;
    let vertices = read_table(alloc, source, counts.vertices, need, vertices_at, part)?;
    let occluders = read_table(alloc, source, counts.occluders, need, occluders_at, part)?;
    let batches = read_batches(alloc, source, &header, need, batches_at, part)?;
    let object_tris = read_table(alloc, source, counts.object_tris, need, triangles_at, part)?;
    let objects = read_objects(
        alloc,
        source,
        counts.objects,
        counts.object_tris,
        need,
        objects_at,
        part,
    )?;
    let cameras = read_table(alloc, source, counts.frames, need, cameras_at, part)?;
    Ok(Draft {
        parts: SceneParts {
            version: header.version,
            width: header.width,
            height: header.height,
            near: header.near,
            grade: header.flags.grade,
            vertices,
            occluders,
            batches: batches.items,
            object_tris,
            objects: objects.items,
            cameras,
        },
        length: need,
        batches: batches.fault,
        objects: objects.fault,
    })
}

/// Sees that nothing follows behind so many bytes of the part: reads one byte more, unless they are the whole part.
fn read_end<S: Source>(source: &mut S, taken: u32, part: Option<u32>) -> Result<(), SceneError>
    requires { IsWithin part taken }
    ensures ended { OnOk result (TakesEnd part taken (S.says source.old) (S.says source.new)) }
    ensures trailing { IfErr result (λ e. IsRefusal e
        → IsTrailing part taken (S.says source.old) (S.says source.new) e) }
    ensures reads { Reads part taken 1 (S.says source.old) (S.says source.new) result }
{
    if is_end(part, taken) {
        return Ok(());
    }
    let mut more = [0; 1];
    match fill(source, &mut more) {
        Err(_) => Err(SceneError::Read),
        Ok(0) => Ok(()),
        Ok(_) => Err(SceneError::Trailing),
    }
}

/// Reads the header, the tables and the end of a part, and tests what was read.
fn read_whole<S: Source>(
    alloc: Global,
    source: &mut S,
    part: Option<u32>,
) -> Result<Scene, SceneError>
    ensures ok { IfOk result (λ s. ReadsPart part (S.says source.old).left (S.says source.new).left s) }
    ensures refused { IfErr result (λ e. IsRefusal e
        → RefusesPart part (S.says source.old).left (S.says source.new).left e) }
    ensures reads { Reads part 0 (greatest_length + 1) (S.says source.old) (S.says source.new) result }
{
    let header = read_header(source, part)?;
    let draft = read_parts(alloc, source, header, part)?;
    read_end(source, draft.length, part)?;
    match tables_fault(&draft.parts, draft.batches, draft.objects) {
        Some(fault) => Err(fault),
        None => Ok(Scene::from_valid(draft.parts)),
    }
}

/// Reads a scene to the source's end. Err: the first fault of the bytes, Read only where the source failed, or Memory
/// at any time. No byte behind a header that is refused is read.
pub fn read_scene<S: Source>(alloc: Global, source: &mut S) -> Result<Scene, SceneError>
    ensures ok { IfOk result (λ s. IsScene s) }
    ensures layout { IfOk result (λ s. TakesLayout (S.says source.old) (S.says source.new) s) }
    ensures only { IfOk result (λ s. IsOnlyScene (S.says source.old) s) }
    ensures ok_first { OnOk result (HasFirstFault (S.says source.old) None) }
    ensures refused { IfErr result (λ e. IsRefusal e → HasFirstFault (S.says source.old) (Some e)) }
    ensures not_a_scene { IfErr result (λ e. IsRefusal e → IsNoScene (S.says source.old)) }
    ensures read { IsErrOf result SceneError.Read → Rose (S.says source.old).faults (S.says source.new).faults }
    ensures faults_stay { (S.says source.old).faults ≤ (S.says source.new).faults }
    // Of a header that is refused 32 bytes are taken, in version 2 behind the version 36, or all there were.
    ensures header { IfErr result (λ e. IsRefusal e → StopsAtHeader (S.says source.old) (S.says source.new) e) }
    // No more bytes are read than the longest scene has, in one turn more at most.
    ensures turns { (S.says source.new).turns ≤ (S.says source.old).turns + greatest_length + 1 }
    // Each read but one took a byte.
    ensures takes { TakesInTurns (greatest_length + 1) (S.says source.old) (S.says source.new) }
{
    read_whole(alloc, source, None)
}

/// Reads a scene from the first `most` bytes that the source has left, or from all if they are fewer, and takes no byte
/// behind them. It answers what `read_scene` answers of these bytes alone; where all of them are taken, their end is
/// known and no further byte is asked for.
pub fn read_part<S: Source>(alloc: Global, source: &mut S, most: u32) -> Result<Scene, SceneError>
    ensures ok { IfOk result (λ s. IsScene s) }
    ensures layout { IfOk result (λ s. TakesPart most (S.says source.old) (S.says source.new) s) }
    ensures only { IfOk result (λ s. IsOnlyScene (first_bytes most (S.says source.old)) s) }
    ensures ok_first { OnOk result (HasFirstFault (first_bytes most (S.says source.old)) None) }
    ensures refused { IfErr result
        (λ e. IsRefusal e → HasFirstFault (first_bytes most (S.says source.old)) (Some e)) }
    ensures not_a_scene { IfErr result (λ e. IsRefusal e → IsNoScene (first_bytes most (S.says source.old))) }
    ensures read { IsErrOf result SceneError.Read → Rose (S.says source.old).faults (S.says source.new).faults }
    ensures faults_stay { (S.says source.old).faults ≤ (S.says source.new).faults }
    // Of a header that is refused as much is taken as `read_scene` takes of these bytes.
    ensures header { IfErr result (λ e. IsRefusal e
        → StopsWithin most (S.says source.old) (S.says source.new) e) }
    ensures within { TakesWithin most (S.says source.old) (S.says source.new) }
    // No byte behind them is asked for: where each read takes a byte, that would be a turn more.
    ensures asked { (S.says source.new).turns ≤ (S.says source.old).turns + most }
    ensures turns { (S.says source.new).turns ≤ (S.says source.old).turns + greatest_length + 1 }
    // Each read but one took a byte.
    ensures takes { TakesInTurns (greatest_length + 1) (S.says source.old) (S.says source.new) }
{
    read_whole(alloc, source, Some(most))
}
