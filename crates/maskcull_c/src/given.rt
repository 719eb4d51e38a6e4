//! What a caller hands over.
ghost use Rattle.std.specs.Prelude.{◌≡◌, ◌≤◌, ◌/◌, ◌%◌, ◌↔◌, IsTrue, IfSome, MatchOption, length, map};
ghost use Rattle.std.specs.List.{All};
ghost use Rattle.cull_base.specs.Screen.{IsSize, dimensions};
ghost use Rattle.near_clip.specs.NearPart.{corner};
ghost use Rattle.snap_setup.specs.Pieces.{clip_at};
ghost use Rattle.maskcull_c.specs.Given.{IsAmong, IsSetup, grade_of, size_of, winding_of, clip_of, tri_of, rect_of};

use cull_base::{ClipVertex, Grade, Rect, Size, Winding};

/// What is added to a winding in a setup where the grade of nearness is wide.
pub const WIDE: u32 = 16;

/// A screen in pixels, the near distance, and which triangles are dropped: 0 none, 1 those that run clockwise on the
/// screen, 2 the others. With `WIDE` more the grade of nearness is wide.
#[derive(Clone, Copy)]
#[repr(C)]
pub struct Setup {
    pub width: u32,
    pub height: u32,
    pub near: u32,
    pub winding: u32,
}

/// A vertex in clip space, before the division by w.
#[derive(Clone, Copy)]
#[repr(C)]
pub struct Vertex {
    pub x: i32,
    pub y: i32,
    pub w: i32,
}

/// A triangle by the numbers of its vertices.
#[derive(Clone, Copy)]
#[repr(C)]
pub struct Triangle {
    pub a: u32,
    pub b: u32,
    pub c: u32,
}

/// The pixels from (x0, y0) to before (x1, y1).
#[derive(Clone, Copy)]
#[repr(C)]
pub struct Area {
    pub x0: i32,
    pub y0: i32,
    pub x1: i32,
    pub y1: i32,
}

/// The eight corners of a box, in any order.
#[derive(Clone, Copy)]
#[repr(C)]
pub struct Corners {
    pub corners: [Vertex; 8],
}

/// A setup that was found right.
#[derive(Drop)]
pub(crate) struct Checked {
    pub(crate) size: Size,
    pub(crate) near: u16,
    pub(crate) winding: Winding,
    pub(crate) grade: Grade,
}

pub(crate) fn winding_of(number: u32) -> Winding
    ensures { result ≡ winding_of number }
{
    match number % WIDE {
        0 => Winding::Both,
        1 => Winding::DropClockwise,
        _ => Winding::DropCounter,
    }
}

// A size of so many pixels, if there is one.
pub(crate) fn size_from(width: u32, height: u32) -> Option<Size>
    ensures { MatchOption result (IsSize width height → ⊥) (λ s. (s ≡ dimensions width height) × IsSize width height) }
{
    if width > 2048 || height > 2048 {
        return None;
    }
    Size::new(width as u16, height as u16)
}

impl Setup {
    pub(crate) fn grade(&self) -> Grade
        ensures { result ≡ grade_of self.now }
    {
        if self.winding / WIDE == 0 {
            Grade::Narrow
        } else {
            Grade::Wide
        }
    }

    // Whether there is a winding of this number, and a grade.
    fn is_drawn(&self) -> bool
        ensures { IsTrue result ↔ (self.now.winding % 16 ≤ 2) × (self.now.winding / 16 ≤ 1) }
    {
        self.winding % WIDE <= 2 && self.winding / WIDE <= 1
    }

    /// None exactly where the size, the near distance, the winding or the grade is none.
    pub(crate) fn checked(&self) -> Option<Checked>
        ensures none { MatchOption result (IsSetup self.now → ⊥) (λ c. IsSetup self.now) }
        ensures size { IfSome result (λ c. c.size ≡ size_of self.now) }
        ensures near { IfSome result (λ c. c.near ≡ self.now.near) }
        ensures winding { IfSome result (λ c. c.winding ≡ winding_of self.now.winding) }
        ensures grade { IfSome result (λ c. c.grade ≡ grade_of self.now) }
    {
        let size = size_from(self.width, self.height)?;
        if self.near < 1 || self.near > 1024 || !self.is_drawn() {
            return None;
        }
        Some(Checked {
            size,
            near: self.near as u16,
            winding: winding_of(self.winding),
            grade: self.grade(),
        })
    }
}

impl Vertex {
    pub(crate) fn clip(&self) -> ClipVertex
        ensures { result ≡ clip_of self.now }
    {
        ClipVertex {
            x: i64::from(self.x),
            y: i64::from(self.y),
            w: i64::from(self.w),
        }
    }
}

impl Area {
    pub(crate) fn rect(&self) -> Rect
        ensures { result ≡ rect_of self.now }
    {
        Rect {
            x0: self.x0,
            y0: self.y0,
            x1: self.x1,
            y1: self.y1,
        }
    }
}

// Whether each vertex of each triangle is among so many.
pub(crate) fn are_among(triangles: &[Triangle], count: usize) -> bool
    ensures { IsTrue result ↔ All (IsAmong count) triangles.now }
{
    triangles.iter().all(|t| (t.a as usize) < count
        && (t.b as usize) < count
        && (t.c as usize) < count)
}

/// The vertices of a triangle. Condition: it names vertices that are there.
#[inline(always)]
pub(crate) fn clips_of(vertices: &[Vertex], triangle: &Triangle) -> [ClipVertex; 3]
    requires { IsAmong (length vertices.now) triangle.now }
    ensures first { corner result 0 ≡ clip_at (map clip_of vertices.now) (tri_of triangle.now) 0 }
    ensures second { corner result 1 ≡ clip_at (map clip_of vertices.now) (tri_of triangle.now) 1 }
    ensures third { corner result 2 ≡ clip_at (map clip_of vertices.now) (tri_of triangle.now) 2 }
{
    [
        vertices[triangle.a as usize].clip(),
        vertices[triangle.b as usize].clip(),
        vertices[triangle.c as usize].clip(),
    ]
}
