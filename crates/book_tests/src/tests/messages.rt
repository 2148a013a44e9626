//! Texts in which `|` stands for the byte 01, what is cut and read of them, and what is written.

mod frames;
mod orders;
mod texts;
mod written;
