//! What holds of tiles together: of rows that lie one after another, of some that are emptied, of what a tile hides.
ghost use Rattle.std.specs.Prelude.{◌≡◌, ℕ, ◌+◌, ◌<◌, List, ◌++◌, length, replicate};
ghost use Rattle.cull_base.specs.Piece.{Piece};
ghost use Rattle.cull_base.specs.Screen.{Dimensions};
ghost use Rattle.masked_update.specs.TileOf.{TileOf, empty_tile, tile_at};
ghost use Rattle.maskcull_c.specs.Bands.{AreMerged};
ghost use Rattle.maskcull_c.specs.Given.{pieces_drawn, size_of};
ghost use Rattle.maskcull_c.specs.Tiles.{AreRows, IsAfter, IsSoundFor, lists_from, none_between, row_start};
ghost use Rattle.maskcull_c.specs.declared.given.Setup.{Setup};
ghost use Rattle.maskcull_c.specs.declared.given.Triangle.{Triangle};
ghost use Rattle.maskcull_c.specs.declared.given.Vertex.{Vertex};

/// Tiles that follow each other, each part after lists of its own, are together after all of these lists, and each part
/// is after the lists that all are after. What is drawn onto the parts is what one draw onto all leaves. Behind a band's
/// tiles those of the row after it follow.
pub fn bands_join()
    ensures own { (size : Dimensions) (first : ℕ) (before from : ℕ → List Piece) (a b : List TileOf)
        → IsAfter size first before a → IsAfter size (first + length a) from b
        → IsAfter size first (lists_from (first + length a) before from) (a ++ b) }
    ensures same { (size : Dimensions) (first : ℕ) (lists : ℕ → List Piece) (a b : List TileOf)
        → IsAfter size first lists a → IsAfter size (first + length a) lists b
        → IsAfter size first lists (a ++ b) }
    ensures parts { (size : Dimensions) (first : ℕ) (lists : ℕ → List Piece) (a b : List TileOf)
        → IsAfter size first lists (a ++ b)
        → IsAfter size first lists a × IsAfter size (first + length a) lists b }
    ensures drawn { (size : Dimensions) (first : ℕ) (pieces : List Piece)
        (a b upper lower whole : List TileOf)
        → AreMerged size first pieces a upper → AreMerged size (first + length a) pieces b lower
        → AreMerged size first pieces (a ++ b) whole → whole ≡ upper ++ lower }
    ensures next { (size : Dimensions) (first_row : ℕ) (tiles : List TileOf)
        → (band : AreRows size first_row tiles)
        → row_start size first_row + length tiles ≡ row_start size (first_row + band.rows) }
{}

/// Where some tiles are emptied, these are after no piece, and the others after their lists.
pub fn part_cleared()
    ensures { (size : Dimensions) (first : ℕ) (lists : ℕ → List Piece) (a b c : List TileOf)
        → IsAfter size first lists (a ++ (b ++ c))
        → IsAfter size first (none_between (first + length a) (first + length a + length b) lists)
        (a ++ (replicate (length b) empty_tile ++ c)) }
{}

/// Each tile of a screen that is after its list is sound for it.
pub fn after_is_sound()
    ensures { (size : Dimensions) (lists : ℕ → List Piece) (tiles : List TileOf) (t : ℕ)
        → IsAfter size 0 lists tiles → t < length tiles → IsSoundFor size t (lists t) (tile_at tiles t) }
{}

/// Slices of triangles that are set up one by one give, one after another, the pieces of all. Pieces that are drawn in
/// parts, one after another, are drawn as one list. So what is set up in slices and drawn slice by slice is what one
/// draw of all triangles leaves.
pub fn slices_join()
    ensures listed { (s : Setup) (vertices : List Vertex) (a b : List Triangle)
        → pieces_drawn s vertices (a ++ b) ≡ pieces_drawn s vertices a ++ pieces_drawn s vertices b }
    ensures merged { (size : Dimensions) (first : ℕ) (ps qs : List Piece) (old between new : List TileOf)
        → AreMerged size first ps old between → AreMerged size first qs between new
        → AreMerged size first (ps ++ qs) old new }
    ensures drawn { (s : Setup) (first : ℕ) (vertices : List Vertex) (a b : List Triangle)
        (old between new whole : List TileOf)
        → AreMerged (size_of s) first (pieces_drawn s vertices a) old between
        → AreMerged (size_of s) first (pieces_drawn s vertices b) between new
        → AreMerged (size_of s) first (pieces_drawn s vertices (a ++ b)) old whole → new ≡ whole }
{}
