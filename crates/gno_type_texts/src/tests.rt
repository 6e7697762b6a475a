// Texts of types, worked out by hand.
mod rows;
mod shelf;
mod texts;
mod words;
