//! The texts of the program, of which no contract speaks. Tests of its ends: tests/unproved/.

mod arguments;
