// What the lines of a case ask.
use crate::plays::told::Told;
use crate::plays::workbench::Workbench;
use crate::plays::{questions, talked};
use crate::sweeps::{any_areas, copies, stops, sweeping, upgrades};
use crate::system::System;
use crate::{damage, files, image_bytes, runs, spellings, texts, watched};
use std::fs::{self, File};
use std::io;
use std::rt::{Clock, Files};
use std::sync::Wait;

/// Asks what a line asks, and tells what is answered.
pub fn ask(rt: &impl System, bench: &mut Workbench, line: &str, told: &mut Told) -> io::Result<()> {
    match questions::question(bench, line, told)? {
        Some((word, rest)) => ask_of_files(rt, bench, word, rest, told),
        None => Ok(()),
    }
}

// Asks a question of files, or else another.
fn ask_of_files(
    rt: &(impl Files<File = File> + Wait + Clock + AllocGlobal),
    bench: &mut Workbench,
    word: &str,
    rest: &str,
    told: &mut Told,
) -> io::Result<()> {
    match word {
        "size" => files::set_size(rt, rest),
        "bytes" => files::read(rt, rest, told),
        "write_file" => files::write(rt, rest),
        "write_wide" => files::write_wide(rt, rest),
        "remove" => fs::remove_file(rt, rest),
        "play_read_only" => files::play_read_only(rt, bench, rest, told),
        _ => ask_of_sweeps(rt, bench, word, rest, told),
    }
}

// Asks for stops or for areas, or else another question.
fn ask_of_sweeps(
    rt: &(impl Files + Wait + Clock + AllocGlobal),
    bench: &mut Workbench,
    word: &str,
    rest: &str,
    told: &mut Told,
) -> io::Result<()> {
    match word {
        "stops" => stops::stop_story(rt, bench, rest, told),
        "stop_opening" => stops::stop_opening(rt.alloc(), bench, told),
        "stop_copy" => copies::stop_copy(rt.alloc(), bench, rest, told),
        "stop_upgrade" => upgrades::stop_upgrade(rt.alloc(), bench, told),
        "stop_format" => stops::stop_format(rt.alloc(), bench, rest, told),
        "sweep" => sweeping::sweep(rt, bench, rest, told),
        "areas" => any_areas::open_all(rt, bench, rest, told),
        _ => ask_of_stores(rt, bench, word, rest, told),
    }
}

// Asks a question of a store, or one that brings all that it needs, or else one of `plays`.
fn ask_of_stores(
    rt: &(impl Wait + Clock + AllocGlobal),
    bench: &mut Workbench,
    word: &str,
    rest: &str,
    told: &mut Told,
) -> io::Result<()> {
    match word {
        "line" => runs::play_line(rt, bench, rest, told),
        "watch" => watched::watch(rt.alloc(), bench, told),
        "watch_failures" => watched::watch_failures(rt.alloc(), bench, told),
        "play_shared" => runs::play_shared(rt, bench, told),
        "cuts" => talked::cut_each(rt, bench, rest, told),
        "unheard" => talked::fail_each(rt, bench, rest, told),
        "area" => damage::tell_area(rt, rest, told),
        "change" => damage::change_each(rt, bench, rest, told),
        "demo_short" => runs::run_short(rt.alloc(), rest, told),
        "image" => image_bytes::open(rt.alloc(), bench, rest, told),
        "record" => spellings::read(rt.alloc(), rest, told),
        "command" => runs::understand(rt.alloc(), rest, told),
        "texts" => {
            texts::tell_all(told);
            Ok(())
        }
        "sizes" => {
            texts::tell_sizes(told);
            Ok(())
        }
        _ => questions::ask(rt, bench, word, rest, told),
    }
}
