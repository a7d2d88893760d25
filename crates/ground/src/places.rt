// A place of the selected screen made from another.
ghost use Rattle.std.specs.Prelude.{◌≡◌, ◌+◌, ◌≤◌};
ghost use Rattle.ground.specs.Spots.{further_by};
ghost use Rattle.model.specs.State.{home, put_at, top_at, late_at};

use model::Place;

// The cursor elsewhere, or put where it stands: it is no longer late.
pub fn put_at(place: Place, line: u8, column: u8) -> Place
    ensures { result ≡ put_at line column place }
{
    Place {
        line,
        column,
        late: 0,
        ..place
    }
}

// The cursor so many columns further in its line; whether it is late is as it was.
pub fn further(place: Place, count: u8) -> Place
    requires { place.column + count ≤ 255 }
    ensures { result ≡ further_by count place }
{
    Place {
        column: place.column + count,
        ..place
    }
}

// Another window top.
pub fn top_at(place: Place, top: u8) -> Place
    ensures { result ≡ top_at top place }
{
    Place { top, ..place }
}

// P9: "sets the screen's waiting flag".
pub fn late_at(place: Place) -> Place
    ensures { result ≡ late_at place }
{
    Place { late: 1, ..place }
}

// "Cursor home, top 1."
pub(crate) fn home_place() -> Place
    ensures { result ≡ home }
{
    Place {
        line: 1,
        column: 1,
        top: 1,
        late: 0,
    }
}
