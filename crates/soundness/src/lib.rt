// Number 3: whether settings are sound, "each in its range" (model's specs/Sound). One test for each list of ranges there, its
// comparisons in the same order; the arrays' lengths are those of their types. A message call asks the parts one by one, every other caller the whole.
#![tactic(auto)]

ghost use Rattle.std.specs.Prelude.{◌≡◌, true, ◌&&◌, length, ◌+◌, ◌-◌, ◌≤◌, ℕ, [], ◌∷◌};
ghost use Rattle.model.specs.declared.Settings.{Settings};
ghost use Rattle.model.specs.Checks.{in_ranges?, range};
ghost use Rattle.model.specs.Screens.{height, screens};
ghost use Rattle.model.specs.Marks.{marked?};
ghost use Rattle.model.specs.Sound.{alone_ranges, array_ranges, inside?, inside_ranges, key_ranges, marks?, most_late, other_ranges, plain_ranges, second?, shape_ranges, sound?};

use model::{Keys, Place, Settings};

// a − b, 0 where b is greater
fn minus(a: u8, b: u8) -> u8
    ensures { result ≡ a - b }
{
    if b <= a { a - b } else { 0 }
}

// the table of modes
fn shape(mode: u8, lines1: u8, lines2: u8, columns1: u8, columns2: u8) -> bool
    ensures { result ≡ in_ranges? (shape_ranges mode lines1 lines2 columns1 columns2) }
{
    let left = minus(48, lines1);
    let beside = minus(79, columns1);
    if mode == 0 {
        return (80 <= columns1)
            & (columns1 <= 80)
            & (80 <= columns2)
            & (columns2 <= 80)
            & (8 <= lines1)
            & (lines1 <= 48)
            & (8 <= lines2)
            & (lines2 <= left);
    }
    if mode == 1 {
        return (39 <= columns1)
            & (columns1 <= 39)
            & (39 <= columns2)
            & (columns2 <= 39)
            & (16 <= lines1)
            & (lines1 <= 48)
            & (lines1 <= lines2)
            & (lines2 <= lines1);
    }
    if mode == 2 {
        return (1 <= columns1)
            & (columns1 <= 78)
            & (beside <= columns2)
            & (columns2 <= beside)
            & (8 <= lines1)
            & (lines1 <= 48)
            & (lines1 <= lines2)
            & (lines2 <= lines1);
    }
    curve(mode, lines1, lines2, columns1, columns2)
}

// P11, mode 3: "one text screen of 8 lines by 80", and no second one
fn curve(mode: u8, lines1: u8, lines2: u8, columns1: u8, columns2: u8) -> bool
    ensures { result ≡ in_ranges? (range 3 mode 3 ∷ range 80 columns1 80 ∷ range 0 columns2 0 ∷ range 8 lines1 8 ∷ range 0 lines2 0 ∷ []) }
{
    (3 <= mode)
        & (mode <= 3)
        & (80 <= columns1)
        & (columns1 <= 80)
        & (0 <= columns2)
        & (columns2 <= 0)
        & (8 <= lines1)
        & (lines1 <= 8)
        & (0 <= lines2)
        & (lines2 <= 0)
}

// P9, the greatest flag of a cursor in a column: "the flag is sound only in the last column under rule 2"
fn most_late(rule: u8, columns: u8, column: u8) -> u8
    ensures { result ≡ most_late rule columns column }
{
    if (rule == 2) & (column == columns) {
        1
    } else {
        0
    }
}

// a cursor with its flag and a window in lines of columns; `less` is H less one
fn inside(rule: u8, lines: u8, columns: u8, less: u8, p: Place) -> bool
    ensures { result ≡ in_ranges? (inside_ranges rule lines columns (less + 1) p) }
{
    let top = minus(lines, less);
    let most = most_late(rule, columns, p.column);
    (1 <= p.line)
        & (p.line <= lines)
        & (1 <= p.column)
        & (p.column <= columns)
        & (1 <= p.top)
        & (p.top <= top)
        & (0 <= p.late)
        & (p.late <= most)
}

// P11, mode 3: "type 3, key display 1, .. screen 2's cursor and top at 1, its flag off"
fn alone(kind: u8, display: u8, p: Place) -> bool
    ensures { result ≡ in_ranges? (alone_ranges 3 kind display p) }
{
    (3 <= kind)
        & (kind <= 3)
        & (1 <= display)
        & (display <= 1)
        & (1 <= p.line)
        & (p.line <= 1)
        & (1 <= p.column)
        & (p.column <= 1)
        & (1 <= p.top)
        & (p.top <= 1)
        & (0 <= p.late)
        & (p.late <= 0)
}

// screen 2: a cursor and a window, or in mode 3 the place of none; `less` is H less one
fn second(settings: &Settings, less: u8) -> bool
    ensures { less + 1 ≡ height settings.now → result ≡ second? settings.now }
{
    let place = settings.places[1];
    if settings.mode == 3 {
        return alone(settings.kind, settings.display, place);
    }
    inside(
        settings.rule,
        settings.lines2,
        settings.columns2,
        less,
        place,
    )
}

// the screens that have cells, of all settings in a mode
fn screens_of(mode: u8) -> u8
    ensures { (s : Settings) → s.mode ≡ mode → result ≡ screens s }
{
    if mode == 3 { 1 } else { 2 }
}

// selection, of so many screens, and step
fn chosen(screens: u8, selected: u8, step: u8, height: u8) -> bool
    ensures { result ≡ in_ranges? (other_ranges screens selected step height) }
{
    (selected < screens) & (1 <= step) & (step <= height)
}

// what is only stored of the keyboard, and the cursor's type; the lengths are those of the types
fn keys_in_range(kind: u8, keys: Keys) -> bool
    ensures { (result ≡ in_ranges? (key_ranges kind keys)) × ((length keys.leds ≡ 3) × (length keys.arrows ≡ 12)) }
{
    let ins = keys.leds[0];
    let caps = keys.leds[1];
    let num = keys.leds[2];
    let known = tables::charset(keys.charset);
    let shifted = tables::shift(keys.shift);
    (0 <= kind)
        & (kind <= 3)
        & (0 <= ins)
        & (ins <= 1)
        & (0 <= caps)
        & (caps <= 1)
        & (0 <= num)
        & (num <= 1)
        & known
        & (0 <= keys.strings)
        & (keys.strings <= 1)
        & (0 <= keys.repeat)
        & (keys.repeat <= 1)
        & (1 <= keys.delay)
        & (keys.delay <= 127)
        & (1 <= keys.interval)
        & (keys.interval <= 127)
        & shifted
}

// the modes' table, asked of settings
pub fn shaped(settings: &Settings) -> bool
    ensures { result ≡ in_ranges? (shape_ranges settings.now.mode settings.now.lines1 settings.now.lines2 settings.now.columns1 settings.now.columns2) }
{
    shape(
        settings.mode,
        settings.lines1,
        settings.lines2,
        settings.columns1,
        settings.columns2,
    )
}

// "cursors and windows are inside their screens, and step is 1 to H"; and the selection
pub fn placed(settings: &Settings) -> bool
    ensures { result ≡ (in_ranges? (other_ranges (screens settings.now) settings.now.selected settings.now.step (height settings.now)) && (inside? settings.now 0 && second? settings.now)) }
{
    let height = tables::height_of(settings.mode, settings.display);
    let less = height - 1;
    let first = settings.places[0];
    let screens = screens_of(settings.mode);
    let other = chosen(screens, settings.selected, settings.step, height);
    let one = inside(
        settings.rule,
        settings.lines1,
        settings.columns1,
        less,
        first,
    );
    let two = second(settings, less);
    other & (one & two)
}

// every setting whose range depends on no other; the arrays' lengths are those of their types. By value: of settings lent a proof does not know the length of
// `places`, so the second clause does not close.
pub fn stored(settings: Settings) -> bool
    ensures { (result ≡ in_ranges? (plain_ranges settings)) × (in_ranges? (array_ranges settings) ≡ true) }
{
    let keys = settings.keys;
    let ranged = keys_in_range(settings.kind, keys);
    (0 <= settings.tracking)
        & (settings.tracking <= 1)
        & (0 <= settings.secret)
        & (settings.secret <= 1)
        & (0 <= settings.cursor)
        & (settings.cursor <= 1)
        & (0 <= settings.display)
        & (settings.display <= 1)
        & (1 <= settings.rule)
        & (settings.rule <= 2)
        & ranged
}

// P5, the marks of a screen of so many lines: "A screen's last line is never marked", nor what lies beyond it
fn marked_in(lines: u8, number: u64) -> bool
    ensures { result ≡ marked? lines number }
{
    let above = minus(lines, 1);
    if 64 <= above {
        return true;
    }
    number >> above == 0
}

// the marks of both screens
pub fn marked(settings: &Settings) -> bool
    ensures { result ≡ (marks? settings.now 0 && marks? settings.now 1) }
{
    let first = settings.marks[0];
    let second = settings.marks[1];
    let one = marked_in(settings.lines1, first);
    let two = marked_in(settings.lines2, second);
    one & two
}

// "Settings are sound exactly when each lies in the range that the rules give"
pub fn sound(settings: Settings) -> bool
    ensures { result ≡ sound? settings }
{
    let shaped = shaped(&settings);
    let placed = placed(&settings);
    let stored = stored(settings);
    let waiting = settings.waiting;
    let lined = unfinished::sound(waiting, settings.held, settings.count);
    let marked = marked(&settings);
    shaped & (placed & stored & marked & lined)
}
