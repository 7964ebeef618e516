//! A payload is copied whole and counted; paths are read and written.

mod counts;
mod paths;
