//! Writing a scene as its one layout. Numbers are gathered on the stack, and the sink is asked once to take many of them.
//! Nothing is allocated.
ghost use Rattle.std.specs.Prelude.{◌≡◌, ℕ, List, ◌∷◌, ◌++◌, ◌+◌, ◌*◌, ◌≤◌, length};
ghost use Rattle.std.specs.List.{flat_map};
ghost use Rattle.cull_base.specs.Stream.{Writes};
ghost use Rattle.scene_reader.specs.Layout.{layout, header_bytes, word_bytes, row_bytes, tri_bytes};
ghost use Rattle.scene_reader.specs.Layout.{corner_bytes, object_bytes, batch_bytes, winding_code, grade_code};
ghost use Rattle.scene_reader.specs.Layout.{winding_byte, stored_batches, batch_count_bytes};

use crate::objects::{BOX, MESH, RECTANGLE};
use crate::scene::Scene;
use cull_base::{Batch, Grade, Object, Sink, SinkError, Tri, Winding};
use text_lines::Text;

/// Bytes of some entries, one behind the other, that a sink is asked once to take.
type Piece = Text<12288>;

/// How many entries of a table are handed to the sink at once. Each has at most 48 bytes.
const AT_ONCE: usize = 256;

/// What stands in a table, as bytes.
trait Written {
    ghost bytes: { Self → List ℕ };

    /// Appends the bytes of an entry. Condition: there is room for 48.
    fn push_to(&self, piece: &mut Piece)
        requires { length piece.old + 48 ≤ 12288 }
        ensures value { piece.new ≡ piece.old ++ bytes self.now }
        ensures room { length piece.new ≤ length piece.old + 48 };
}

fn push_words(piece: &mut Piece, words: &[u32])
    requires { length piece.old + 4 * length words.now ≤ 12288 }
    ensures value { piece.new ≡ piece.old ++ flat_map word_bytes words.now }
    ensures room { length piece.new ≡ length piece.old + 4 * length words.now }
{
    for word in words {
        piece.push(&word.to_le_bytes());
    }
}

fn push_row(piece: &mut Piece, row: &[i32])
    requires { length piece.old + 4 * length row.now ≤ 12288 }
    ensures value { piece.new ≡ piece.old ++ row_bytes row.now }
    ensures room { length piece.new ≡ length piece.old + 4 * length row.now }
{
    for number in row {
        piece.push(&number.to_le_bytes());
    }
}

impl Written for [i32; 3] {
    ghost bytes = { row_bytes };

    fn push_to(&self, piece: &mut Piece) {
        push_row(piece, self);
    }
}

impl Written for [i32; 12] {
    ghost bytes = { row_bytes };

    fn push_to(&self, piece: &mut Piece) {
        push_row(piece, self);
    }
}

impl Written for Tri {
    ghost bytes = { tri_bytes };

    fn push_to(&self, piece: &mut Piece) {
        push_words(piece, &self.0);
    }
}

fn push_batch(piece: &mut Piece, batch: &Batch)
    requires { length piece.old + 5 ≤ 12288 }
    ensures value { piece.new ≡ piece.old ++ batch_bytes batch.now }
    ensures room { length piece.new ≡ length piece.old + 5 }
{
    piece.push(&batch.count.to_le_bytes());
    piece.push(&[code_of(batch.winding)]);
}

impl Written for Batch {
    ghost bytes = { batch_bytes };

    fn push_to(&self, piece: &mut Piece) {
        push_batch(piece, self);
    }
}

fn push_corners(piece: &mut Piece, low: &[i32; 3], high: &[i32; 3])
    requires { length piece.old + 24 ≤ 12288 }
    ensures value { piece.new ≡ piece.old ++ corner_bytes low.now high.now }
    ensures room { length piece.new ≡ length piece.old + 24 }
{
    push_row(piece, low);
    push_row(piece, high);
}

/// The kind of an object and its six numbers.
fn push_object(piece: &mut Piece, object: &Object)
    requires { length piece.old + 25 ≤ 12288 }
    ensures value { piece.new ≡ piece.old ++ object_bytes object.now }
    ensures room { length piece.new ≡ length piece.old + 25 }
{
    match object {
        Object::Area { rect, w } => {
            piece.push(&[RECTANGLE]);
            push_row(piece, &[rect.x0, rect.y0, rect.x1, rect.y1, *w, 0]);
        }
        Object::Block { low, high } => {
            piece.push(&[BOX]);
            push_corners(piece, low, high);
        }
        Object::Mesh { first, count } => {
            piece.push(&[MESH]);
            push_words(piece, &[*first, *count, 0, 0, 0, 0]);
        }
    }
}

impl Written for Object {
    ghost bytes = { object_bytes };

    fn push_to(&self, piece: &mut Piece) {
        push_object(piece, self);
    }
}

/// The bytes of some entries, one behind the other.
fn piece_of<E: Written>(entries: &[E]) -> Piece
    requires { length entries.now ≤ 256 }
    ensures { result ≡ flat_map E.bytes entries.now }
{
    let mut piece = Piece::empty();
    for entry in entries {
        entry.push_to(&mut piece);
    }
    piece
}

/// Writes a table.
fn write_table<W: Sink, E: Written>(sink: &mut W, entries: &[E]) -> Result<(), SinkError>
    ensures { Writes (W.says sink.old) (W.says sink.new) result (flat_map E.bytes entries.now) }
{
    for part in 0..entries.len().div_ceil(AT_ONCE) {
        let first = AT_ONCE * part;
        let end = first + AT_ONCE.min(entries.len() - first);
        piece_of(&entries[first..end]).write_to(sink)?;
    }
    Ok(())
}

fn code_of(winding: Winding) -> u8
    ensures { result ≡ winding_code winding }
{
    match winding {
        Winding::Both => 0,
        Winding::DropClockwise => 1,
        Winding::DropCounter => 2,
    }
}

fn code_of_grade(grade: Grade) -> u8
    ensures { result ≡ grade_code grade }
{
    match grade {
        Grade::Narrow => 0,
        Grade::Wide => 1,
    }
}

// What stands behind the near distance: the winding of the one batch of version 1.
fn winding_byte(version: u16, batches: &[Batch]) -> u8
    ensures { result ≡ winding_byte version batches.now }
{
    if version != 1 {
        return 0;
    }
    if batches.is_empty() {
        return 0;
    }
    code_of(batches[0].winding)
}

// The batches that a table is written of. Version 1 has none.
fn stored_batches(version: u16, batches: &[Batch]) -> &[Batch]
    ensures { result.now ≡ stored_batches version batches.now }
{
    if version == 1 {
        return &batches[..0];
    }
    batches
}

// The number of batches, at the end of a header of version 2.
fn push_batch_count(header: &mut Text<36>, version: u16, batches: &[Batch])
    requires room { length header.old ≤ 32 }
    requires few { length batches.now ≤ 4096 }
    ensures { header.new ≡ header.old ++ batch_count_bytes version batches.now }
{
    if version == 1 {
        return;
    }
    header.push(&(batches.len() as u32).to_le_bytes());
}

fn header_of(scene: &Scene) -> Text<36>
    ensures { result ≡ header_bytes scene.now }
{
    let version = scene.version();
    let batches = scene.batches();
    let mut header = Text::begin(b"MSOC");
    header.push(&version.to_le_bytes());
    header.push(&scene.size().width().to_le_bytes());
    header.push(&scene.size().height().to_le_bytes());
    header.push(&scene.near().to_le_bytes());
    header.push(&[winding_byte(version, batches), code_of_grade(scene.grade())]);
    header.push(&(scene.cameras().len() as u16).to_le_bytes());
    header.push(&(scene.vertices().len() as u32).to_le_bytes());
    header.push(&(scene.occluders().len() as u32).to_le_bytes());
    header.push(&(scene.object_tris().len() as u32).to_le_bytes());
    header.push(&(scene.objects().len() as u32).to_le_bytes());
    push_batch_count(&mut header, version, batches);
    header
}

/// Appends the scene's layout; after an error the beginning of it was appended, and not the whole. Err: Failed only where
/// the sink's count of faults rose, Memory only where that of refused growths rose. Nothing is allocated here.
pub fn write_scene<W: Sink>(scene: &Scene, sink: &mut W) -> Result<(), SinkError>
    ensures { Writes (W.says sink.old) (W.says sink.new) result (layout scene.now) }
{
    header_of(scene).write_to(sink)?;
    write_table(sink, scene.vertices())?;
    write_table(sink, scene.occluders())?;
    write_table(sink, stored_batches(scene.version(), scene.batches()))?;
    write_table(sink, scene.object_tris())?;
    write_table(sink, scene.objects())?;
    write_table(sink, scene.cameras())
}
