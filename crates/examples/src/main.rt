//! Examples of calls, each in a file of its own.
//!
//! `examples detection FILE=LABEL ..` finds the encodings of files. The others read standard input:
//! `examples NAME LABEL`, where `mail-part` and `meta-prescan` take no label. `examples all` runs
//! each over the files of `data`, from which it has to be started. A file of [`PARTED`] has many
//! inputs: each has the byte 1E and a line before it, and a line feed after it.
#![tactic(auto)]

mod detection;
mod faults;
mod form_data;
mod legacy_writer;
mod lines;
mod log_filter;
mod mail_part;
mod meta_prescan;

use std::io::{BufRead, Error, Read, Write};
use std::{env, fs, io};

/// The files whose encodings are found, with their labels.
const FILES: &[(&str, &str)] = &[
    ("marked.txt", "windows-1252"),
    ("cut.txt", "shift_jis"),
    ("labelled.html", "CP1251"),
    ("kana.txt", "x-sjis"),
    ("other.txt", "latin-9"),
    ("plain.txt", ""),
];

/// The other examples, each with its label and its file.
const INPUTS: &[(&str, &str, &str)] = &[
    ("faults", "gb18030", "diary.txt"),
    ("form-data", "shift_jis", "form.txt"),
    ("lines", "koi8-r", "poem.txt"),
    ("log-filter", "shift_jis", "server.log"),
    ("mail-part", "", "mail.txt"),
    ("meta-prescan", "", "cyrillic.html"),
    ("meta-prescan", "", "late.html"),
    ("meta-prescan", "", "marked.html"),
    ("meta-prescan", "", "shift_jis.html"),
    ("legacy-writer", "iso-2022-jp", "letter.txt"),
];

/// The examples that run over each part of a file, whose file `stdout` says what each gives. Places
/// of malformed sequences are those of Python's codecs, and in ISO-2022-JP and UTF-16 by hand from
/// the Encoding Standard; charsets those that Python's `email` finds, except that it neither drops
/// a comment nor reads a backslash before a letter (RFC 2045, 5322); encodings of heads those of
/// the HTML Standard's steps by hand.
const PARTED: &[(&str, &str)] = &[
    ("faults", "faults.txt"),
    ("mail-part", "mails.txt"),
    ("meta-prescan", "heads.txt"),
];

/// Runs an example over an input.
fn run<R: Read>(rt: &HostRuntime, name: &str, label: &str, input: &mut R) -> io::Result<()> {
    let mut out = rt.stdout();
    match name {
        "faults" => faults::run(rt.alloc(), label, input, &mut out),
        "form-data" => form_data::run(rt.alloc(), label, input, &mut out),
        "lines" => lines::run(rt.alloc(), label, input, &mut out),
        "log-filter" => log_filter::run(rt.alloc(), label, input, &mut out),
        "mail-part" => mail_part::run(rt.alloc(), input, &mut out),
        "meta-prescan" => meta_prescan::run(rt.alloc(), input, &mut out),
        "legacy-writer" => legacy_writer::run(rt.alloc(), label, input, &mut out),
        _ => Err(Error::other("no such example")),
    }
}

/// Runs an example over each part of a file. The line before a part says what it is, or is its
/// label. It is written too.
fn run_parts(rt: &HostRuntime, name: &str, bytes: &[u8]) -> io::Result<()> {
    for part in bytes.split(|byte| *byte == 0x1E).skip(1) {
        let mut input = part;
        let mut line = String::new(rt.alloc());
        let _len = input.read_line(&mut line)?;
        rt.stdout().write_all(line.as_bytes())?;
        let mut input = input.strip_suffix(b"\n").unwrap_or(input);
        run(rt, name, line.trim_ascii_end(), &mut input)?;
    }
    Ok(())
}

/// Runs each example over its files.
fn run_all(rt: &HostRuntime) -> io::Result<()> {
    for (file, label) in FILES {
        detection::run(rt, file, label)?;
    }
    for (name, label, file) in INPUTS {
        let bytes = fs::read(rt, file)?;
        run(rt, name, label, &mut bytes.as_slice())?;
    }
    for (name, file) in PARTED {
        run_parts(rt, name, &fs::read(rt, file)?)?;
    }
    Ok(())
}

fn main(rt: HostRuntime) -> io::Result<()> {
    let mut args = env::args(&rt)?.skip(1);
    let name = args.next().ok_or(Error::other("no name"))?;
    if name.as_str() == "all" {
        return run_all(&rt);
    }
    if name.as_str() != "detection" {
        let label = args.next().unwrap_or(String::new(rt.alloc()));
        return run(&rt, name.as_str(), label.as_str(), &mut rt.stdin());
    }
    for resource in args {
        let resource = resource.as_str();
        let (file, label) = resource.split_once('=').unwrap_or((resource, ""));
        detection::run(&rt, file, label)?;
    }
    Ok(())
}
