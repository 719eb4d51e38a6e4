//! What certified corners make.
ghost use Rattle.std.specs.Prelude.{ℕ};
ghost use Rattle.cull_base.specs.Piece.{Piece};
ghost use Rattle.exact_clip.specs.Clip.{Clip};
ghost use Rattle.pixel_forms.specs.Within.{Sight, IsWithinFaces};
ghost use Rattle.pixel_forms.specs.Certified.{StandFor, HasCertified, IsTriangle, IsHalf};
ghost use Rattle.pixel_forms.specs.declared.forms.Forms.{Forms};

/// A piece of positive area with three corners that a triangle's forms certify is within the triangle.
pub fn triangle_certified()
    ensures { (sight : Sight) (nearest : ℕ) (forms : Forms) (a b c : Clip) (t : Piece)
        → StandFor sight nearest forms (IsTriangle a b c) → HasCertified nearest forms t
        → IsWithinFaces sight (IsTriangle a b c) t }
{}

/// A piece of positive area with three corners that a quad's forms certify is within its two triangles.
pub fn quad_certified()
    ensures { (sight : Sight) (nearest : ℕ) (forms : Forms) (a b c d : Clip) (t : Piece)
        → StandFor sight nearest forms (IsHalf a b c d) → HasCertified nearest forms t
        → IsWithinFaces sight (IsHalf a b c d) t }
{}
