//! Occluder triangles, set up once: their pieces are written into room of the caller's.
ghost use Rattle.std.specs.Prelude.{◌≡◌, ◌≢◌, ◌+◌, ◌≤◌, length, map};
ghost use Rattle.std.specs.List.{All};
ghost use Rattle.cull_base.specs.Grade.{top_of};
ghost use Rattle.snap_setup.specs.Pieces.{list_of_clips};
ghost use Rattle.maskcull_c.specs.Given.{IsAmong, IsSetup, clip_of, pieces_drawn, tri_of};
ghost use Rattle.maskcull_c.specs.Pieces.{AreListed, HasRoom};
ghost use Rattle.maskcull_c.specs.declared.status.TheConstants.{DONE, BAD_SETUP, BAD_INDEX, BAD_ROOM};

use crate::given::{Setup, Triangle, Vertex, are_among, clips_of};
use crate::pieces::PieceRoom;
use crate::status::{BAD_INDEX, BAD_ROOM, BAD_SETUP, DONE};
use cull_base::{Grade, Side, Size, Winding};
use snap_setup::{Pieces, set_up};

// Writes pieces from one place on, and tells the place after them.
#[inline(always)]
fn put_pieces(rooms: &mut [PieceRoom], at: usize, pieces: &Pieces) -> usize
    requires { at + length pieces.now ≤ length rooms.old }
    ensures next { result ≡ at + length pieces.now }
    ensures listed { AreListed at pieces.now rooms.old rooms.new }
{
    for k in 0..pieces.len() {
        rooms[at + k as usize] = PieceRoom::of(&pieces.get(k));
    }
    at + pieces.len() as usize
}

// Writes the pieces of triangles, one triangle after another, and tells how many there are.
fn list_triangles(
    rooms: &mut [PieceRoom],
    vertices: &[Vertex],
    triangles: &[Triangle],
    near: u16,
    size: Size,
    winding: Winding,
    grade: Grade,
) -> usize
    requires near_least { 1 ≤ near }
    requires near_most { near ≤ 1024 }
    requires indices { All (IsAmong (length vertices.now)) triangles.now }
    requires room { HasRoom triangles.now rooms.old }
    ensures count { result ≡ length
        (list_of_clips (map clip_of vertices.now) (map tri_of triangles.now) (top_of grade) near size winding) }
    ensures listed { AreListed 0
        (list_of_clips (map clip_of vertices.now) (map tri_of triangles.now) (top_of grade) near size winding)
        rooms.old rooms.new }
{
    let mut at = 0;
    for triangle in triangles {
        let clips = clips_of(vertices, triangle);
        let pieces = set_up(&clips, near, size, winding, Side::Occluder, grade);
        at = put_pieces(rooms, at, &pieces);
    }
    at
}

/// Writes the pieces of triangles, in order, to the head of the room, and how many there are: 0 where all were written,
/// else why none was. There has to be room for two a triangle.
#[unsafe(no_mangle)]
pub extern "C" fn maskcull_set_up(
    setup: &Setup,
    vertices: &[Vertex],
    triangles: &[Triangle],
    pieces: &mut [PieceRoom],
    count: &mut usize,
) -> u32
    ensures listed { result ≡ DONE
        → AreListed 0 (pieces_drawn setup.now vertices.now triangles.now) pieces.old pieces.new }
    ensures count { result ≡ DONE → count.new ≡ length (pieces_drawn setup.now vertices.now triangles.now) }
    ensures accepted { IsSetup setup.now → HasRoom triangles.now pieces.old
        → All (IsAmong (length vertices.now)) triangles.now → result ≡ DONE }
    ensures bad_setup { result ≡ BAD_SETUP → IsSetup setup.now → ⊥ }
    ensures bad_room { result ≡ BAD_ROOM → HasRoom triangles.now pieces.old → ⊥ }
    ensures bad_index { result ≡ BAD_INDEX → All (IsAmong (length vertices.now)) triangles.now → ⊥ }
    ensures refuses_setup { (IsSetup setup.now → ⊥) → result ≡ BAD_SETUP }
    ensures refuses_room { IsSetup setup.now → (HasRoom triangles.now pieces.old → ⊥) → result ≡ BAD_ROOM }
    ensures refuses_index { IsSetup setup.now → HasRoom triangles.now pieces.old
        → (All (IsAmong (length vertices.now)) triangles.now → ⊥) → result ≡ BAD_INDEX }
    ensures most { result ≤ BAD_ROOM }
    ensures refused { result ≢ DONE → (pieces.new ≡ pieces.old) × (count.new ≡ count.old) }
{
    let Some(checked) = setup.checked() else {
        return BAD_SETUP;
    };
    if pieces.len() / 2 < triangles.len() {
        return BAD_ROOM;
    }
    if !are_among(triangles, vertices.len()) {
        return BAD_INDEX;
    }
    *count = list_triangles(
        pieces,
        vertices,
        triangles,
        checked.near,
        checked.size,
        checked.winding,
        checked.grade,
    );
    DONE
}
