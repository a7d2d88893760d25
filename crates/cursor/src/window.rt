// The window of the selected screen: where its top goes, and that a top that changes empties the layer.
ghost use Rattle.std.specs.Prelude.{◌≡◌, ◌+◌, ◌-◌, ◌≤◌};
ghost use Rattle.model.specs.Rules.{topped, held, nearest, centred, tracked, tracked_far};
ghost use Rattle.ground.specs.Frame.{Stands, LayerOf};
ghost use Rattle.ground.specs.Acts.{ActsAbove, Reads, Top};
ghost use Rattle.ground.specs.Here.{lost, earlier, later};

use ground::{Frame, marks, places};
use model::Place;

// "A top that changes empties the whole layer."
pub fn turn(frame: Frame, place: Place, top: u8, layer: &mut [u8]) -> Place
    requires stands { Stands frame place }
    requires le_top { (1 ≤ top) × (top + frame.height ≤ frame.lines + 1) }
    requires layer_of { LayerOf frame layer.old }
    ensures { ActsAbove (topped top) frame place result layer.old layer.new }
{
    if top == place.top {
        return place;
    }
    marks::empty(frame, layer);
    places::top_at(place, top)
}

// 213: "top greatest".
pub fn most(frame: Frame) -> u8
    requires { (frame.height ≤ frame.lines) × (frame.lines ≤ 48) }
    ensures { result ≡ frame.lines + 1 - frame.height }
{
    frame.lines + 1 - frame.height
}

// "Held in range": a top runs from 1 to lines−H+1.
fn hold(frame: Frame, place: Place, top: u8) -> u8
    requires { Stands frame place }
    ensures { Top (held top) frame place result }
{
    top.min(most(frame)).max(1)
}

// 150: "top less by step".
pub fn less(frame: Frame, place: Place) -> u8
    requires { Stands frame place }
    ensures { Top earlier frame place result }
{
    hold(frame, place, place.top.saturating_sub(frame.step))
}

// 151: "or more by step".
pub fn more(frame: Frame, place: Place) -> u8
    requires { Stands frame place }
    ensures { Top later frame place result }
{
    hold(frame, place, place.top + frame.step)
}

// 215: "top = cursor line − H/2, held in range".
pub fn centre(frame: Frame, place: Place) -> u8
    requires { Stands frame place }
    ensures { Top centred frame place result }
{
    hold(frame, place, place.line.saturating_sub(frame.height / 2))
}

// "By the least amount": the nearest top that shows the cursor's line.
fn near(frame: Frame, place: Place) -> u8
    requires { Stands frame place }
    ensures { Top nearest frame place result }
{
    if place.line < place.top {
        return place.line;
    }
    if place.top + frame.height <= place.line {
        return place.line + 1 - frame.height;
    }
    place.top
}

// While tracking is on, "a window that misses the cursor's line".
pub fn misses(frame: Frame, place: Place) -> bool
    requires { Stands frame place }
    ensures { Reads lost frame place result }
{
    (frame.tracking == 1) & ((place.line < place.top) | (place.top + frame.height <= place.line))
}

// After printing, 37, codes 8, 10, 13 the window moves "by the least amount".
pub fn track(frame: Frame, place: Place, layer: &mut [u8]) -> Place
    requires stands { Stands frame place }
    requires layer_of { LayerOf frame layer.old }
    ensures { ActsAbove tracked frame place result layer.old layer.new }
{
    if misses(frame, place) {
        turn(frame, place, near(frame, place), layer)
    } else {
        place
    }
}

// "For 61 as 215 does."
pub fn track_far(frame: Frame, place: Place, layer: &mut [u8]) -> Place
    requires stands { Stands frame place }
    requires layer_of { LayerOf frame layer.old }
    ensures { ActsAbove tracked_far frame place result layer.old layer.new }
{
    if misses(frame, place) {
        turn(frame, place, centre(frame, place), layer)
    } else {
        place
    }
}
