//! A line of a log, held against what may stand there.
ghost use Rattle.std.specs.Prelude.{◌≡◌, ℕ, [], ◌∷◌, ◌++◌, ◌<◌, true, false, length, codes, IfOk};
ghost use Rattle.std.specs.Fmt.{decimal};
ghost use Rattle.std.specs.List.{join_with_byte};
ghost use Rattle.std.proofs.Props.{props};
ghost use Rattle.cull_base.specs.Span.{HasTilesOf, IsSpan};
ghost use Rattle.cull_report.specs.Live.{object_line, object_at};
ghost use Rattle.cull_report.specs.Scene.{object_area, size_of};
ghost use Rattle.live_check.specs.Fitting.{FitsAt, IsLaidOut, LineComes, object_prop};
ghost use Rattle.live_check.specs.Standing.{AreStanding, count_at};
ghost use Rattle.live_check.specs.Waiting.{Fails, NeverComes, waiting};

use crate::tiles::Tiles;
use crate::unread::Unread;
use crate::words::{take_verdict, takes_text};
use cull_base::{ClipVertex, Failed, FrameList, Source, TileSpan, Verdict};
use cull_report::object_verdict;
use masked_update::PlainView;
use scene_reader::Scene;
use text_lines::Line;

/// A frame whose lines are checked: its clip vertices and its list.
#[derive(Drop)]
pub struct Laid<'a> {
    pub scene: &'a Scene,
    pub number: u32,
    pub clips: &'a [ClipVertex],
    pub list: &'a FrameList,
    ghost laid: { IsLaidOut scene.now number clips.now list.now.list } by { Prim.hlevel (props, object_prop) },
}

// What a line begins with: `live`, its frame, its round and its object, each with a space behind it.
fn head_of(frame: u32, round: u32, object: u32) -> Line
    ensures { result ≡ join_with_byte 32
        (codes "live" ∷ decimal frame ∷ decimal round ∷ decimal object ∷ []) ++ 32 ∷ [] }
{
    let mut text = Line::begin(b"live");
    text.number(u64::from(frame));
    text.number(u64::from(round));
    text.number(u64::from(object));
    text.push(b" ");
    text
}

fn is_same(seen: Verdict, told: Verdict) -> bool
    ensures yes { result ≡ true → seen ≡ told }
    ensures no { result ≡ false → seen ≡ told → ⊥ }
{
    seen == told
}

/// Takes the line of an object in a round, if the log goes on with one whose counts fit where the tiles stand and whose
/// verdict is that after these; the tiles stand there then. Else a front of it may be taken. Conditions: the object is
/// one of the scene's, the span has the tiles of its area, and the tiles stand at members of the frame's list.
pub fn takes_line<S: Source>(
    frame: &Laid,
    round: u32,
    object: u32,
    span: &TileSpan,
    tiles: &mut Tiles,
    unread: &mut Unread,
    log: &mut S,
) -> Result<bool, Failed>
    requires object { object < length frame.now.scene.now.objects }
    requires span { HasTilesOf span.now (size_of frame.now.scene.now)
        (object_area frame.now.scene.now frame.now.number (object_at frame.now.scene.now object)) }
    requires within { IsSpan (size_of frame.now.scene.now) span.now }
    requires standing { AreStanding frame.now.list.now.list tiles.old }
    ensures yes { IfOk result (λ b. b ≡ true → LineComes frame.now.scene.now frame.now.number round object
        (count_at tiles.old) (count_at tiles.new)
        (waiting unread.old (S.says log.old).left) (waiting unread.new (S.says log.new).left)) }
    ensures no { IfOk result (λ b. b ≡ false → (k : ℕ → ℕ)
        → FitsAt frame.now.scene.now frame.now.number object (count_at tiles.old) k
        → NeverComes (waiting unread.old (S.says log.old).left)
        (object_line frame.now.scene.now frame.now.number round object k)) }
    ensures standing { IfOk result (λ b. b ≡ true → AreStanding frame.now.list.now.list tiles.new) }
    ensures fails { Fails (S.says log.old) (S.says log.new) result }
{
    if !takes_text(unread, log, head_of(frame.number, round, object).as_slice())? {
        return Ok(false);
    }
    let Some(verdict) = take_verdict(unread, log)? else {
        return Ok(false);
    };
    if !tiles.state(unread, log, span)? {
        return Ok(false);
    }
    if !takes_text(unread, log, b"\n")? {
        return Ok(false);
    }
    if !tiles.advance(frame.list, span) {
        return Ok(false);
    }
    let view = PlainView::new(tiles.states());
    let seen = object_verdict(frame.scene, frame.number, frame.clips, object, &view);
    Ok(is_same(seen, verdict))
}
