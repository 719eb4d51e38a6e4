//! Answers of objects by workers side by side, or with their lines by one thread.
ghost use Rattle.std.specs.Prelude.{◌≡◌, ◌≤◌, length, IfOk};
ghost use Rattle.cull_report.specs.Runs.{IsRunSize};
ghost use Rattle.cull_report.specs.Scene.{verdicts_in};
ghost use Rattle.cull_report.specs.Tallies.{Adds};

use crate::answering::{Answering, all_answers};
use crate::asked::Asked;
use crate::frame_verdicts::FrameVerdicts;
use crate::report::BATCH;
use crate::run_pool::runs_by_workers;
use crate::runs::{run_size, tally_of_runs, whole_steps};
use crate::tally::Tally;
use cull_base::Memory;
use masked_update::TileView;
use scene_reader::Scene;
use std::alloc::Global;
use std::sync::Wait;
use std::thread::Threads;

/// A thread is worth its start for so many objects and triangles of meshes.
const SHARE: usize = 512;

/// Each object's verdict, and what is counted of all.
#[derive(Drop)]
pub struct Answers {
    pub verdicts: FrameVerdicts,
    pub tally: Tally,
}

/// By how many threads so many workers ask the objects of a scene. With one or none no thread is started.
pub fn thread_count(scene: &Scene, workers: u32) -> u32
    ensures { result ≤ workers }
{
    let shares = scene.objects().len() / SHARE + scene.object_tris().len() / SHARE;
    shares.min(workers as usize) as u32
}

// How many objects' lines are one piece, by so many threads: those of a run, which ends where a step of so many objects
// does; without runs as many as are written at once.
fn piece_size(objects: u32, threads: u32, step: u32) -> usize
    ensures { IsRunSize result }
{
    if threads <= 1 {
        return BATCH;
    }
    whole_steps(run_size(objects, threads as usize), step as usize)
}

/// The answers of objects, by so many threads and the caller, in runs of whole steps; by the caller alone where there
/// is one thread or none. Err where memory gave out.
pub fn answers_by_workers<R: Threads + Wait + Sync, A: Answering + Sync>(
    rt: &R,
    alloc: Global,
    asked: &A,
    threads: u32,
    step: u32,
) -> Result<Answers, Memory>
    ensures verdicts { IfOk result (λ v. v.verdicts ≡ A.all asked.now) }
    ensures told { IfOk result
        (λ v. Adds (A.told asked.now 0) v.tally (A.told asked.now (length (A.all asked.now)))) }
{
    if threads <= 1 {
        let (list, tally) = all_answers(alloc, asked)?;
        let verdicts = FrameVerdicts::plain(list);
        return Ok(Answers { verdicts, tally });
    }
    let size = piece_size(asked.count(), threads, step);
    let runs = runs_by_workers(rt, alloc, asked, size, threads)?;
    let tally = tally_of_runs(asked, runs.as_slice(), size);
    let verdicts = FrameVerdicts::of_runs(alloc, runs, size)?;
    Ok(Answers { verdicts, tally })
}

/// The same by the caller's thread alone, with the lines made at once, in the pieces in which the lines by so many
/// threads are written. Err where memory gave out.
pub fn answers_with_lines<A: Answering>(
    alloc: Global,
    asked: &A,
    threads: u32,
    step: u32,
) -> Result<Answers, Memory>
    ensures verdicts { IfOk result (λ v. v.verdicts ≡ A.all asked.now) }
    ensures told { IfOk result
        (λ v. Adds (A.told asked.now 0) v.tally (A.told asked.now (length (A.all asked.now)))) }
{
    let size = piece_size(asked.count(), threads, step);
    let (list, tally) = all_answers(alloc, asked)?;
    let verdicts = FrameVerdicts::with_lines(alloc, list, size)?;
    Ok(Answers { verdicts, tally })
}

/// Each object's verdict as `verdicts` gives it, by so many workers side by side where there is much to ask. Err where
/// memory gave out.
pub fn verdicts_by_workers<R: Threads + Wait + Sync, V: TileView + Sync>(
    rt: &R,
    alloc: Global,
    asked: &Asked<V>,
    workers: u32,
) -> Result<FrameVerdicts, Memory>
    ensures { IfOk result (λ v. v ≡ verdicts_in asked.now.scene.now asked.now.frame (V.tile_of asked.now.view.now)) }
{
    let threads = thread_count(asked.scene, workers);
    let answers = answers_by_workers(rt, alloc, asked, threads, 1)?;
    Ok(answers.verdicts)
}

/// The same by the caller's thread alone, with the lines made at once, in the pieces in which the lines by so many
/// workers are written. Err where memory gave out.
pub fn verdicts_with_lines<V: TileView>(
    alloc: Global,
    asked: &Asked<V>,
    workers: u32,
) -> Result<FrameVerdicts, Memory>
    ensures { IfOk result (λ v. v ≡ verdicts_in asked.now.scene.now asked.now.frame (V.tile_of asked.now.view.now)) }
{
    let threads = thread_count(asked.scene, workers);
    let answers = answers_with_lines(alloc, asked, threads, 1)?;
    Ok(answers.verdicts)
}
