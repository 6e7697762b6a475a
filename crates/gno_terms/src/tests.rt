// Names and normal forms, worked out by hand.
mod names;
mod normal;
