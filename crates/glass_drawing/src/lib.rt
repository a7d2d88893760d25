// What is drawn of the glass in an ordinary terminal: the places of a shown screen that changed, and mode 3's dots as Braille letters.
#![tactic(auto)]

pub mod curve;
pub mod drawing;
