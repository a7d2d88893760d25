// 198 and 199 in mode 3, by crate dots. The settings stay.
#![tactic(auto)]

ghost use Rattle.std.specs.Prelude.{◌≡◌};
ghost use Rattle.model.specs.Dot.{two_bytes, with_dot};
ghost use Rattle.model.specs.Rules.{point};
ghost use Rattle.drawing.specs.Drawing.{Dotted, Drawable, Stroked};

use model::{DOTS, Point, Sequence, Settings};

// 198: "document 000's 13 bytes", start and end (each horizontal, then vertical), mask and function. Any other sequence draws nothing here.
pub fn stroke(settings: Settings, q: Sequence, dots: &mut [u8; DOTS]) -> Settings
    requires { Drawable q }
    ensures { (result ≡ settings) × (Stroked q dots.old dots.new) }
{
    if let Sequence::DrawLine {
        p1,
        p2,
        p3,
        p4,
        p5,
        p6,
        p7,
        p8,
        p9,
        p10,
        p11,
    } = q
    {
        dots::line(
            dots,
            point_of(p1, p2, p3, p4),
            point_of(p5, p6, p7, p8),
            tables::two_bytes(p9, p10),
            p11,
        );
    }
    settings
}

// A dot of 198: two numbers of two bytes, the horizontal one first.
fn point_of(h1: u8, h2: u8, v1: u8, v2: u8) -> Point
    ensures { result ≡ point (two_bytes v1 v2) (two_bytes h1 h2) }
{
    Point {
        v: tables::two_bytes(v1, v2),
        h: tables::two_bytes(h1, h2),
    }
}

// 199: its number, vertical, horizontal.
pub fn dot(settings: Settings, on: u8, v: u8, h1: u8, h2: u8, dots: &mut [u8; DOTS]) -> Settings
    requires { Dotted on v (two_bytes h1 h2) }
    ensures { (result ≡ settings) × (dots.new ≡ with_dot on v (two_bytes h1 h2) dots.old) }
{
    let p = Point {
        v: u16::from(v),
        h: tables::two_bytes(h1, h2),
    };
    dots::put_dot(dots, p, on);
    settings
}
