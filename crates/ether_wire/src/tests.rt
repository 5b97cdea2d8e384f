//! Tests of the lowest layer, one file for each subject.
mod buffered;
mod ends;
mod frames;
mod ports;
mod texts;
