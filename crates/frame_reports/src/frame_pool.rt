//! The frames of a window, made by workers side by side: who comes takes the next, and each is back in its seat then.
ghost use Rattle.std.specs.Prelude.{◌≡◌, ◌<◌, ◌≤◌, ◌+◌, length, vec_capacity, vec_len, IfOk, IfSome, MatchOption, OnOk};
ghost use Rattle.std.specs.List.{All};
ghost use Rattle.cull_report.specs.Scene.{frame_clips};
ghost use Rattle.frame_reports.specs.Windows.{AreDrawnFrom, HasPlaces, HavePlaces, IsDrawn, IsSlotOf};
ghost use Rattle.seats.specs.Seats.{AreAllSeated, AreSeated, Means};

use crate::drawing::{Drawing, draw_plainly};
use crate::frames::{Asking, Frame};
use crate::heap::keep_freed_memory;
use camera_path::Camera;
use cull_base::{ClipVertex, Memory};
use scene_reader::Scene;
use seats::{Hand, Loan, Seating, Seats, give_back, take_from};
use side_by_side::for_each_beside;
use std::alloc::Global;
use std::marker::Brand;
use std::sync::atomic::{AtomicU64, Ordering};
use std::sync::ledger::{Blank, Ledger};
use std::sync::{Mutex, Wait};
use std::thread::Threads;
use tile_queues::Gate;

/// The seat of a frame.
#[derive(Drop)]
pub enum Slot {
    /// No worker has made it yet.
    Waits,
    Made(Frame),
    /// Memory gave out while it was made.
    NoMemory,
}

/// A place for each clip vertex of a frame.
#[derive(Drop)]
pub struct Room {
    pub clips: Vec<ClipVertex>,
}

/// What a worker has between its frames: a share of the seats' ledger, and a room.
#[derive(Drop)]
pub struct Maker<P: Ledger> {
    pub hand: Hand<P>,
    pub room: Room,
}

/// The frames of a window: so many from a first on. Each worker asks for so many bytes at once before its first frame.
#[derive(Drop)]
pub struct Window<'a, R, G> {
    pub drawing: &'a Drawing<'a, R, G>,
    pub asking: Asking,
    pub first: u32,
    pub count: u32,
    pub bytes: usize,
}

// The scene's vertices through a frame's camera, by the caller's thread alone.
fn clip_alone(scene: &Scene, frame: u32, clips: &mut [ClipVertex])
    requires frame { frame < length scene.now.cameras }
    requires places { length clips.old ≡ length scene.now.vertices }
    ensures clips { clips.new ≡ frame_clips scene.now frame }
    ensures places { length clips.new ≡ length clips.old }
{
    let camera = Camera(scene.cameras()[frame as usize]);
    let vertices = scene.vertices();
    for i in 0..clips.len() {
        clips[i] = camera.clip(&vertices[i]);
    }
}

// A frame, drawn by the caller's thread alone; none where memory gave out.
fn drawn_alone<R: Threads + Wait + Sync, G: Gate>(
    drawing: &Drawing<R, G>,
    asking: Asking,
    frame: u32,
    clips: &mut [ClipVertex],
) -> Option<Frame>
    requires frame { frame < length drawing.now.scene.now.cameras }
    requires places { length clips.old ≡ length drawing.now.scene.now.vertices }
    ensures drawn { IfSome result (IsDrawn drawing.now.scene.now drawing.now.groups.now frame) }
    ensures places { length clips.new ≡ length clips.old }
{
    clip_alone(drawing.scene, frame, clips);
    match draw_plainly(drawing, asking, frame, clips) {
        Ok(drawn) => Some(drawn),
        Err(Memory) => None,
    }
}

// The seats of a window's frames, of which none is made. Err: out of memory.
fn first_slots<R, G>(window: &Window<R, G>) -> Result<Vec<Option<Loan<Slot>>>, Memory>
    requires within { let w = window.now in w.first + w.count ≤ length w.drawing.now.scene.now.cameras }
    ensures count { IfOk result (λ v. vec_len v ≡ window.now.count) }
    ensures slots { let w = window.now in
        IfOk result (λ v. AreAllSeated (IsSlotOf w.drawing.now.scene.now w.drawing.now.groups.now w.first) v.items) }
{
    let count = window.count as usize;
    let mut slots = Vec::with_capacity(window.drawing.alloc, count).map_err(|_| Memory)?;
    for number in 0..count {
        slots.push_reserved(Some(Loan::new(number, Slot::Waits)));
    }
    Ok(slots)
}

// The frame of a seat, made now if no worker made it; none where memory gave out.
fn frame_of<R: Threads + Wait + Sync, G: Gate>(
    window: &Window<R, G>,
    number: usize,
    slot: Slot,
    clips: &mut [ClipVertex],
) -> Option<Frame>
    requires slot { let w = window.now in
        IsSlotOf w.drawing.now.scene.now w.drawing.now.groups.now w.first number slot }
    requires places { length clips.old ≡ length window.now.drawing.now.scene.now.vertices }
    ensures drawn { let w = window.now in
        IfSome result (IsDrawn w.drawing.now.scene.now w.drawing.now.groups.now (w.first + number)) }
    ensures places { length clips.new ≡ length clips.old }
{
    // an accessor tells what is held of a scene
    let _frames = window.drawing.scene.cameras().len();
    match slot {
        Slot::Waits => {
            let frame = window.first + number as u32;
            drawn_alone(window.drawing, window.asking, frame, clips)
        }
        Slot::Made(frame) => Some(frame),
        Slot::NoMemory => None,
    }
}

// A seat whose frame is made.
fn made<R: Threads + Wait + Sync, G: Gate>(
    window: &Window<R, G>,
    number: usize,
    slot: Slot,
    clips: &mut [ClipVertex],
) -> Slot
    requires slot { let w = window.now in
        IsSlotOf w.drawing.now.scene.now w.drawing.now.groups.now w.first number slot }
    requires places { length clips.old ≡ length window.now.drawing.now.scene.now.vertices }
    ensures slot { let w = window.now in
        IsSlotOf w.drawing.now.scene.now w.drawing.now.groups.now w.first number result }
    ensures places { length clips.new ≡ length clips.old }
{
    match frame_of(window, number, slot, clips) {
        Some(frame) => Slot::Made(frame),
        None => Slot::NoMemory,
    }
}

// Takes the next frame, makes it and gives it back. None where none is left.
fn make_one<P: Seating<Slot>, R: Threads + Wait + Sync, G: Gate>(
    window: &Window<R, G>,
    seats: &Mutex<Seats<P, Slot>>,
    next: &AtomicU64,
    hand: &mut Hand<P>,
    clips: &mut [ClipVertex],
) -> Option<()>
    requires means { let w = window.now in
        Means P.holds (IsSlotOf w.drawing.now.scene.now w.drawing.now.groups.now w.first) }
    requires places { length clips.old ≡ length window.now.drawing.now.scene.now.vertices }
    ensures places { length clips.new ≡ length clips.old }
{
    let rt = window.drawing.rt;
    let number = next.fetch_add(1, Ordering::SeqCst) as usize;
    let Hand { share } = hand;
    let mut loan = take_from(rt, seats, share, &|_| number)?;
    loan.task = made(window, loan.seat, loan.task, clips);
    give_back(rt, seats, share, loan);
    Some(())
}

// Makes frames until none is left. The heap of the worker's thread grows once, for about as many as it makes.
fn make_some<P: Seating<Slot>, R: Threads + Wait + Sync, G: Gate>(
    window: &Window<R, G>,
    seats: &Mutex<Seats<P, Slot>>,
    next: &AtomicU64,
    maker: &mut Maker<P>,
)
    requires means { let w = window.now in
        Means P.holds (IsSlotOf w.drawing.now.scene.now w.drawing.now.groups.now w.first) }
    requires places { HasPlaces window.now.drawing.now.scene.now maker.old.room }
    ensures { HasPlaces window.now.drawing.now.scene.now maker.new.room }
{
    // where there is no such block, a frame tells what it has no memory for
    let _ = keep_freed_memory(window.drawing.alloc, window.bytes);
    for _ in 0..window.count {
        let clips = maker.room.clips.as_mut_slice();
        if make_one(window, seats, next, &mut maker.hand, clips).is_none() {
            return;
        }
    }
}

// Takes the last room out.
fn last_room(_scene: &Scene, rooms: &mut Vec<Room>) -> Room
    requires some { 1 ≤ vec_len rooms.old }
    requires places { HavePlaces _scene.now rooms.old.items }
    ensures room { HasPlaces _scene.now result }
    ensures places { HavePlaces _scene.now rooms.new.items }
    ensures count { vec_len rooms.new + 1 ≡ vec_len rooms.old }
    ensures capacity { vec_capacity rooms.new ≡ vec_capacity rooms.old }
{
    rooms.pop().unwrap()
}

// Puts a room behind the others, for which there is memory.
fn put_last(room: Room, _scene: &Scene, rooms: &mut Vec<Room>)
    requires memory { vec_len rooms.old + 1 ≤ vec_capacity rooms.old }
    requires room { HasPlaces _scene.now room }
    requires places { HavePlaces _scene.now rooms.old.items }
    ensures places { HavePlaces _scene.now rooms.new.items }
    ensures count { vec_len rooms.new ≡ vec_len rooms.old + 1 }
    ensures capacity { vec_capacity rooms.new ≡ vec_capacity rooms.old }
{
    rooms.push_reserved(room);
}

// A worker of each hand and a room. Err: out of memory.
fn makers_of<P: Ledger>(
    alloc: Global,
    scene: &Scene,
    hands: &mut Vec<Hand<P>>,
    rooms: &mut Vec<Room>,
) -> Result<Vec<Maker<P>>, Memory>
    requires hands { vec_len hands.old ≡ vec_len rooms.old }
    requires places { HavePlaces scene.now rooms.old.items }
    ensures count { IfOk result (λ v. vec_len v ≡ vec_len rooms.old) }
    ensures places { IfOk result (λ v. All (λ m. HasPlaces scene.now m.room) v.items) }
    ensures no_hand { OnOk result (vec_len hands.new ≡ 0) }
    ensures no_room { OnOk result (vec_len rooms.new ≡ 0) }
    ensures back_hands { vec_capacity hands.new ≡ vec_capacity hands.old }
    ensures back_rooms { vec_capacity rooms.new ≡ vec_capacity rooms.old }
{
    let count = rooms.len();
    let mut makers = Vec::with_capacity(alloc, count).map_err(|_| Memory)?;
    for _i in 0..count {
        let room = last_room(scene, rooms);
        let hand = hands.pop().unwrap();
        makers.push_reserved(Maker { hand, room });
    }
    Ok(makers)
}

// Takes the hands and the rooms back, for which there is memory.
fn take_apart<P: Ledger>(
    makers: Vec<Maker<P>>,
    scene: &Scene,
    hands: &mut Vec<Hand<P>>,
    rooms: &mut Vec<Room>,
)
    requires places { All (λ m. HasPlaces scene.now m.room) makers.items }
    requires no_hand { vec_len hands.old ≡ 0 }
    requires no_room { vec_len rooms.old ≡ 0 }
    requires back_hands { vec_len makers ≤ vec_capacity hands.old }
    requires back_rooms { vec_len makers ≤ vec_capacity rooms.old }
    ensures hands { vec_len hands.new ≡ vec_len makers }
    ensures rooms { vec_len rooms.new ≡ vec_len makers }
    ensures places { HavePlaces scene.now rooms.new.items }
    ensures capacity { vec_capacity rooms.new ≡ vec_capacity rooms.old }
{
    for maker in makers {
        let Maker { hand, room } = maker;
        hands.push_reserved(hand);
        put_last(room, scene, rooms);
    }
}

// Makes the frames of the seats that the caller picks, by a thread for each room but one and by the caller, which would
// wait for them otherwise.
fn make_under<P: Seating<Slot> + Send, R: Threads + Wait + Sync, G: Gate>(
    window: &Window<R, G>,
    blank: Blank,
    slots: Vec<Option<Loan<Slot>>>,
    rooms: &mut Vec<Room>,
) -> Result<Vec<Option<Loan<Slot>>>, Memory>
    requires name { blank.name ≡ P.name }
    requires parts { blank.parts ≡ P.parts }
    requires workers { blank.parts ≡ vec_len rooms.old }
    requires some { 1 ≤ vec_len rooms.old }
    requires few { vec_len rooms.old ≤ 64 }
    requires means { let w = window.now in
        Means P.holds (IsSlotOf w.drawing.now.scene.now w.drawing.now.groups.now w.first) }
    requires slots { AreSeated P.holds P.names slots.items }
    requires rooms { HavePlaces window.now.drawing.now.scene.now rooms.old.items }
    ensures slots { IfOk result (λ v. AreSeated P.holds P.names v.items) }
    ensures rooms { OnOk result (HavePlaces window.now.drawing.now.scene.now rooms.new.items) }
    ensures workers { OnOk result (vec_len rooms.new ≡ vec_len rooms.old) }
{
    let (alloc, scene) = (window.drawing.alloc, window.drawing.scene);
    let room = last_room(scene, rooms);
    let threads = rooms.len();
    let opened = Seats::<P, Slot>::open(alloc, blank, slots, threads as u32);
    let (seats, mut hands, hand) = opened.map_err(|_| Memory)?;
    let mut makers = makers_of(alloc, scene, &mut hands, rooms)?;
    let mut own = Maker { hand, room };
    let lock = Mutex::new(seats);
    let seats = &lock;
    let numbers = AtomicU64::new(0);
    let next = &numbers;
    for_each_beside(
        window.drawing.rt,
        makers.as_mut_slice(),
        threads,
        &|_worker: usize, maker: &mut Maker<P>|
            requires means { let w = window.now in
                Means P.holds (IsSlotOf w.drawing.now.scene.now w.drawing.now.groups.now w.first) }
            requires places { HasPlaces window.now.drawing.now.scene.now maker.old.room }
            ensures { HasPlaces window.entry.now.drawing.now.scene.now maker.new.room }
        { make_some(window, seats, next, maker) },
        &mut ||
            requires means { let w = window.now in
                Means P.holds (IsSlotOf w.drawing.now.scene.now w.drawing.now.groups.now w.first) }
            requires places { HasPlaces window.now.drawing.now.scene.now own.room }
            ensures { HasPlaces window.entry.now.drawing.now.scene.now own.exit.room }
        { make_some(window, seats, next, &mut own) },
    );
    take_apart(makers, scene, &mut hands, rooms);
    let Maker { hand, room } = own;
    put_last(room, scene, rooms);
    Ok(lock.into_inner().close(hands, hand))
}

// The frame of a slot, which has its seat's task.
fn frame_in<R: Threads + Wait + Sync, G: Gate>(
    window: &Window<R, G>,
    number: usize,
    slot: Option<Loan<Slot>>,
    clips: &mut [ClipVertex],
) -> Option<Frame>
    requires there { let w = window.now in
        MatchOption slot ⊥ (λ l. IsSlotOf w.drawing.now.scene.now w.drawing.now.groups.now w.first number l.task) }
    requires places { length clips.old ≡ length window.now.drawing.now.scene.now.vertices }
    ensures drawn { let w = window.now in
        IfSome result (IsDrawn w.drawing.now.scene.now w.drawing.now.groups.now (w.first + number)) }
    ensures places { length clips.new ≡ length clips.old }
{
    frame_of(window, number, slot.unwrap().task, clips)
}

// The frames of all seats in order. One that no worker made is made now, so that none is missing but where memory gave
// out. Err: out of memory.
fn frames_of<R: Threads + Wait + Sync, G: Gate>(
    window: &Window<R, G>,
    slots: Vec<Option<Loan<Slot>>>,
    clips: &mut [ClipVertex],
) -> Result<Vec<Option<Frame>>, Memory>
    requires slots { let w = window.now in
        AreAllSeated (IsSlotOf w.drawing.now.scene.now w.drawing.now.groups.now w.first) slots.items }
    requires places { length clips.old ≡ length window.now.drawing.now.scene.now.vertices }
    ensures drawn { let w = window.now in IfOk result
        (λ v. AreDrawnFrom w.drawing.now.scene.now w.drawing.now.groups.now w.first (vec_len slots) v.items) }
    ensures count { IfOk result (λ v. vec_len v ≡ vec_len slots) }
    ensures places { length clips.new ≡ length clips.old }
{
    let mut frames = Vec::with_capacity(window.drawing.alloc, slots.len()).map_err(|_| Memory)?;
    let mut number = 0usize;
    for slot in slots {
        let frame = frame_in(window, number, slot, clips);
        frames.push_reserved(frame);
        number += 1;
    }
    Ok(frames)
}

/// The frames of a window, each none where memory gave out, made by a thread for each room but one, and by the caller.
/// Rooms are kept. Err: out of memory. Conditions: the scene has these frames, and there are 1 to 64 rooms, each with a
/// place for each vertex.
pub fn make_window<R: Threads + Wait + Sync, G: Gate>(
    window: &Window<R, G>,
    rooms: &mut Vec<Room>,
) -> Result<Vec<Option<Frame>>, Memory>
    requires within { let w = window.now in w.first + w.count ≤ length w.drawing.now.scene.now.cameras }
    requires some { 1 ≤ vec_len rooms.old }
    requires few { vec_len rooms.old ≤ 64 }
    requires rooms { HavePlaces window.now.drawing.now.scene.now rooms.old.items }
    ensures drawn { let w = window.now in IfOk result
        (λ v. AreDrawnFrom w.drawing.now.scene.now w.drawing.now.groups.now w.first w.count v.items) }
    ensures count { IfOk result (λ v. vec_len v ≡ window.now.count) }
    ensures rooms { OnOk result (HavePlaces window.now.drawing.now.scene.now rooms.new.items) }
    ensures workers { OnOk result (vec_len rooms.new ≡ vec_len rooms.old) }
{
    let scene = window.drawing.scene;
    let slots = first_slots(window)?;
    let blank = Blank::new(rooms.len() as u64);
    let slots = make_under::<Brand, R, G>(window, blank, slots, rooms)?;
    let mut room = last_room(scene, rooms);
    let frames = frames_of(window, slots, room.clips.as_mut_slice())?;
    put_last(room, scene, rooms);
    Ok(frames)
}
