// What stands: the settings in ten lines, a line of sums, and the rows.
use crate::adler::adler32;
use crate::rows::say_rows;
use model::{Keys, Place, SHOWN, Settings};

// `printer` is the sum of all printer bytes so far.
pub fn say_standing(
    out: &impl Print,
    settings: Settings,
    cells: &[u8],
    layer: &[u8],
    shown: &[u8; SHOWN],
    dots: &[u8],
    printer: u32,
) {
    let [first, second] = settings.places;
    say_screens(out, settings);
    say_place(out, 1, first);
    say_place(out, 2, second);
    say_cursor(out, settings);
    say_keys(out, settings.keys, settings.display);
    say_stream(out, settings.count, &settings.waiting, settings.held);
    say_runs(out, settings.marks);
    say_rule(out, settings.rule, first, second);
    let cells = adler32(1, cells);
    let layer = adler32(1, layer);
    let patterns = adler32(1, &settings.patterns);
    let texts = adler32(1, &settings.texts);
    let dots = adler32(1, dots);
    let _ = println!(out;
        "sums cells {cells} layer {layer} patterns {patterns} printer {printer} texts {texts} dots {dots}"
    );
    say_rows(out, shown);
}

// `selected` is told as the screen's number, 1 or 2.
fn say_screens(out: &impl Print, settings: Settings) {
    let Settings {
        mode,
        lines1,
        lines2,
        columns1,
        columns2,
        ..
    } = settings;
    let selected = u64::from(settings.selected) + 1;
    let _ = println!(out;
        "mode {mode} lines {lines1} {lines2} columns {columns1} {columns2} selected {selected}"
    );
}

fn say_place(out: &impl Print, screen: u8, place: Place) {
    let Place {
        line,
        column,
        top,
        ..
    } = place;
    let _ = println!(out; "screen {screen} line {line} column {column} top {top}");
}

fn say_cursor(out: &impl Print, settings: Settings) {
    let Settings {
        tracking,
        step,
        cursor,
        kind,
        boundary,
        secret,
        ..
    } = settings;
    let [one, two, three] = settings.keys.leds;
    let set = settings.keys.charset;
    let _ = print!(out;
        "tracking {tracking} step {step} cursor {cursor} type {kind} boundary {boundary}"
    );
    let _ = println!(out; " secret {secret} leds {one} {two} {three} set {set}");
}

fn say_keys(out: &impl Print, keys: Keys, display: u8) {
    let Keys {
        strings,
        repeat,
        delay,
        interval,
        shift,
        ..
    } = keys;
    let _ = println!(out;
        "strings {strings} display {display} repeat {repeat} {delay} {interval} shift {shift}"
    );
    let _ = print!(out; "arrows");
    say_bytes(out, &keys.arrows);
}

// `stream count N waiting B B ..`: the stream's byte count and the bytes that wait, none after the word where none wait.
fn say_stream(out: &impl Print, count: u32, waiting: &[u8], held: u8) {
    let _ = print!(out; "stream count {count} waiting");
    let most = usize::from(held).min(waiting.len());
    say_bytes(out, &waiting[..most]);
}

// The rest of a line: each byte behind a blank.
fn say_bytes(out: &impl Print, bytes: &[u8]) {
    for byte in bytes {
        let _ = print!(out; " {byte}");
    }
    let _ = println!(out);
}

// `runs 1 L L ..` and `runs 2 L L ..`: of each screen the lines that run on, none after the number where none does.
fn say_runs(out: &impl Print, marks: [u64; 2]) {
    for (marks, screen) in marks.iter().zip(1..=2u8) {
        let _ = print!(out; "runs {screen}");
        say_marked(out, *marks);
    }
}

// The lines of a screen that run on.
fn say_marked(out: &impl Print, marks: u64) {
    for line in 1..=48u8 {
        if (marks >> (line - 1)) % 2 == 1 {
            let _ = print!(out; " {line}");
        }
    }
    let _ = println!(out);
}

// `rule R flags F F`: how a line is left at its last column, and whether each screen's cursor is late there.
fn say_rule(out: &impl Print, rule: u8, first: Place, second: Place) {
    let _ = println!(out; "rule {rule} flags {} {}", first.late, second.late);
}
