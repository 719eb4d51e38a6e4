//! Occluder meshes of floats, set up once: their pieces are written into room of the caller's.
ghost use Rattle.std.specs.Prelude.{◌≡◌, ◌≢◌, ◌+◌, ◌*◌, ◌<◌, ◌≤◌, List, ℕ, IfSome, length, true};
ghost use Rattle.std.specs.List.{All};
ghost use Rattle.maskcull_c.specs.Floats.{AreSetUp, AreWithin, HasFloatRoom, IsView, position_at, position_count};
ghost use Rattle.maskcull_c.specs.Given.{IsAmong, IsSetup};
ghost use Rattle.maskcull_c.specs.Lenses.{AreAdded, AreHeld};
ghost use Rattle.maskcull_c.specs.Pieces.{AreListed};
ghost use Rattle.maskcull_c.specs.declared.status.TheConstants.{DONE, BAD_SETUP, BAD_INDEX, BAD_ROOM};

use crate::given::{Setup, Triangle, are_among};
use crate::lens::Lens;
use crate::pieces::PieceRoom;
use crate::scratch::Scratch;
use crate::status::{BAD_INDEX, BAD_ROOM, BAD_SETUP, DONE};
use crate::view::View;
use inward_pieces::{FanPieces, quad_pieces, triangle_pieces};

/// The most pieces that a triangle can have.
const MOST: usize = 7;

// Holds the clip point of each position. Condition: there is a scratch for each, and no more.
fn hold(scratch: &mut [Scratch], lens: &Lens, positions: &[u32])
    requires { length scratch.old ≡ position_count lens.now.view.stride (length positions.now) }
    ensures { AreHeld lens.now positions.now scratch.new }
{
    for k in 0..scratch.len() {
        scratch[k] = Scratch::of(lens.point(positions, k));
    }
}

// Writes pieces from one place on, and tells the place after them.
#[inline(always)]
fn put_fan(rooms: &mut [PieceRoom], at: usize, pieces: &FanPieces) -> usize
    requires { at + length pieces.now ≤ length rooms.old }
    ensures next { result ≡ at + length pieces.now }
    ensures listed { AreListed at pieces.now rooms.old rooms.new }
{
    for k in 0..pieces.len() {
        rooms[at + k as usize] = PieceRoom::of(&pieces.get(k));
    }
    at + pieces.len() as usize
}

// Whether two positions have the same bits.
#[inline(always)]
fn are_same(lens: &Lens, positions: &[u32], first: u32, second: u32) -> bool
    requires first { first < position_count lens.now.view.stride (length positions.now) }
    requires second { second < position_count lens.now.view.stride (length positions.now) }
    ensures { result ≡ true → position_at lens.now.view.stride positions.now first
        ≡ position_at lens.now.view.stride positions.now second }
{
    if first == second {
        return true;
    }
    lens.position(positions, first as usize) == lens.position(positions, second as usize)
}

// The pieces of triangle i. None: one of its points isn't held.
#[inline(always)]
fn triangle_fan(
    lens: &Lens,
    held: &[Scratch],
    triangles: &[Triangle],
    i: usize,
) -> Option<FanPieces>
    requires there { i < length triangles.now }
    requires among { All (IsAmong (length held.now)) triangles.now }
    ensures few { IfSome result (λ pieces. length pieces ≤ 7) }
    ensures within { (positions : List ℕ) → AreHeld lens.now positions held.now
        → IfSome result (AreWithin lens.now.setup lens.now.view positions triangles.now) }
{
    let triangle = &triangles[i];
    let a = held[triangle.a as usize].point()?;
    let b = held[triangle.b as usize].point()?;
    let c = held[triangle.c as usize].point()?;
    Some(triangle_pieces(&lens.eye, &a, &b, &c))
}

// The pieces of triangles i and i + 1 as one quad a b c d, where they are a b c and a c d. None: each is taken alone.
#[inline(always)]
fn quad_fan(
    lens: &Lens,
    held: &[Scratch],
    positions: &[u32],
    triangles: &[Triangle],
    i: usize,
) -> Option<FanPieces>
    requires there { i + 1 < length triangles.now }
    requires among { All (IsAmong (length held.now)) triangles.now }
    requires held { AreHeld lens.now positions.now held.now }
    ensures few { IfSome result (λ pieces. length pieces ≤ 10) }
    ensures within { IfSome result (AreWithin lens.now.setup lens.now.view positions.now triangles.now) }
{
    let first = &triangles[i];
    let second = &triangles[i + 1];
    if !are_same(lens, positions, first.a, second.a)
        || !are_same(lens, positions, first.c, second.b)
    {
        return None;
    }
    let a = held[first.a as usize].point()?;
    let b = held[first.b as usize].point()?;
    let c = held[first.c as usize].point()?;
    let d = held[second.c as usize].point()?;
    let pieces = quad_pieces(&lens.eye, &a, &b, &c, &d)?;
    // an accessor tells how many there are at most
    let _count = pieces.len();
    Some(pieces)
}

// Writes the pieces of triangle i from one place on, and tells the place after them.
#[inline(always)]
fn put_triangle(
    rooms: &mut [PieceRoom],
    at: usize,
    lens: &Lens,
    held: &[Scratch],
    triangles: &[Triangle],
    i: usize,
) -> usize
    requires there { i < length triangles.now }
    requires among { All (IsAmong (length held.now)) triangles.now }
    requires room { at + 7 ≤ length rooms.old }
    ensures { (positions : List ℕ) → AreHeld lens.now positions held.now
        → AreAdded lens.now positions triangles.now 7 at result rooms.old rooms.new }
{
    match triangle_fan(lens, held, triangles, i) {
        Some(pieces) => put_fan(rooms, at, &pieces),
        None => at,
    }
}

// Writes the pieces of triangles i and i + 1.
#[inline(always)]
fn put_pair(
    rooms: &mut [PieceRoom],
    at: usize,
    lens: &Lens,
    held: &[Scratch],
    positions: &[u32],
    triangles: &[Triangle],
    i: usize,
) -> usize
    requires there { i + 1 < length triangles.now }
    requires among { All (IsAmong (length held.now)) triangles.now }
    requires held { AreHeld lens.now positions.now held.now }
    requires room { at + 14 ≤ length rooms.old }
    ensures { AreAdded lens.now positions.now triangles.now 14 at result rooms.old rooms.new }
{
    if let Some(pieces) = quad_fan(lens, held, positions, triangles, i) {
        return put_fan(rooms, at, &pieces);
    }
    let next = put_triangle(rooms, at, lens, held, triangles, i);
    put_triangle(rooms, next, lens, held, triangles, i + 1)
}

// Writes the pieces of all triangles, and tells how many there are.
fn put_triangles(
    rooms: &mut [PieceRoom],
    lens: &Lens,
    held: &[Scratch],
    positions: &[u32],
    triangles: &[Triangle],
) -> usize
    requires among { All (IsAmong (length held.now)) triangles.now }
    requires held { AreHeld lens.now positions.now held.now }
    requires room { 7 * length triangles.now ≤ length rooms.old }
    ensures { AreSetUp lens.now.setup lens.now.view positions.now triangles.now rooms.old rooms.new result }
{
    let mut at = 0;
    for k in 0..triangles.len() / 2 {
        at = put_pair(rooms, at, lens, held, positions, triangles, 2 * k);
    }
    if triangles.len() % 2 == 1 {
        return put_triangle(rooms, at, lens, held, triangles, triangles.len() - 1);
    }
    at
}

// Sets up a mesh. Where the near distance or the matrix has no number, there is no piece.
fn list_mesh(
    rooms: &mut [PieceRoom],
    setup: &Setup,
    view: &View,
    positions: &[u32],
    triangles: &[Triangle],
    scratch: &mut [Scratch],
) -> usize
    requires setup { IsSetup setup.now }
    requires view { IsView setup.now view.now }
    requires among { All (IsAmong (length scratch.old)) triangles.now }
    requires scratch { length scratch.old ≡ position_count view.now.stride (length positions.now) }
    requires room { 7 * length triangles.now ≤ length rooms.old }
    ensures { AreSetUp setup.now view.now positions.now triangles.now rooms.old rooms.new result }
{
    let Some(lens) = Lens::of(setup, view) else {
        return 0;
    };
    hold(scratch, &lens, positions);
    put_triangles(rooms, &lens, scratch, positions, triangles)
}

/// Writes the pieces of a mesh of floats, in order, to the head of the room, and how many there are: 0 where all were
/// written, else why none was. Each lies within the triangles whose positions are numbers: over the square around each
/// sample that it covers there is one of them, no farther than it says. There has to be a scratch for each position, and
/// room for seven pieces a triangle.
#[unsafe(no_mangle)]
pub extern "C" fn maskcull_set_up_floats(
    setup: &Setup,
    view: &View,
    positions: &[u32],
    triangles: &[Triangle],
    scratch: &mut [Scratch],
    pieces: &mut [PieceRoom],
    count: &mut usize,
) -> u32
    ensures listed { result ≡ DONE
        → AreSetUp setup.now view.now positions.now triangles.now pieces.old pieces.new count.new }
    ensures accepted { IsSetup setup.now → IsView setup.now view.now
        → HasFloatRoom view.now positions.now triangles.now scratch.old pieces.old
        → All (IsAmong (position_count view.now.stride (length positions.now))) triangles.now → result ≡ DONE }
    ensures bad_setup { result ≡ BAD_SETUP → IsSetup setup.now → IsView setup.now view.now → ⊥ }
    ensures bad_room { result ≡ BAD_ROOM
        → HasFloatRoom view.now positions.now triangles.now scratch.old pieces.old → ⊥ }
    ensures bad_index { result ≡ BAD_INDEX
        → All (IsAmong (position_count view.now.stride (length positions.now))) triangles.now → ⊥ }
    ensures refuses_setup { (IsSetup setup.now → IsView setup.now view.now → ⊥) → result ≡ BAD_SETUP }
    ensures refuses_room { IsSetup setup.now → IsView setup.now view.now
        → (HasFloatRoom view.now positions.now triangles.now scratch.old pieces.old → ⊥) → result ≡ BAD_ROOM }
    ensures refuses_index { IsSetup setup.now → IsView setup.now view.now
        → HasFloatRoom view.now positions.now triangles.now scratch.old pieces.old
        → (All (IsAmong (position_count view.now.stride (length positions.now))) triangles.now → ⊥)
        → result ≡ BAD_INDEX }
    ensures most { result ≤ BAD_ROOM }
    ensures refused { result ≢ DONE
        → (pieces.new ≡ pieces.old) × (count.new ≡ count.old) × (scratch.new ≡ scratch.old) }
{
    let Some(_checked) = view.checked(setup) else {
        return BAD_SETUP;
    };
    let known = view.position_count(positions);
    if scratch.len() < known || pieces.len() / MOST < triangles.len() {
        return BAD_ROOM;
    }
    if !are_among(triangles, known) {
        return BAD_INDEX;
    }
    *count = list_mesh(
        pieces,
        setup,
        view,
        positions,
        triangles,
        &mut scratch[..known],
    );
    DONE
}
