// What the program takes of the system.
use std::alloc::AllocGlobal;
use std::fs::File;
use std::rt::{Clock, Files};
use std::sync::Wait;

/// What the program takes of the system.
pub trait System: Wait + Clock + Files<File = File> + Print + AllocGlobal {}

impl<R: Wait + Clock + Files<File = File> + Print + AllocGlobal> System for R {}
