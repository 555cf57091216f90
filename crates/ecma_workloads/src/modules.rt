//! Many small files: imports, HTML, canonical texts and rows of tokens.
//!
//! `imports_text`, `html_text`, `write_tokens`, `count_tokens`, `write_canonical` on 7,500 modules.
use crate::job::Job;
use crate::settings::{fits, options};
use ecma_html::html_text;
use ecma_imports::imports_text;
use ecma_rows::{TokenRow, count_tokens, write_canonical, write_tokens};
use ecma_samples::{Pool, Random, Sample};
use std::alloc::{AllocError, Global};

/// Options for rows of numbers: a module, slashes by the flag.
const BY_FLAG: u32 = 2 + 8;

/// How long the modules are, and up to a hundred bytes more.
const LENGTHS: &[usize] = &[100, 200, 400, 800, 1_600, 3_200, 6_400, 12_800];

/// How many rows there is room for.
const ROOM: usize = 8192;

fn write_imports(job: &mut Job, text: &str) -> Result<(), AllocError> {
    if !fits(text) {
        return Ok(());
    }
    let options = options(false, true);
    let settings = options.settings(false);
    let lines = imports_text(job.alloc, &settings, options.context(), text)?;
    job.digest.add_bytes(&lines);
    Ok(())
}

fn write_html(job: &mut Job, text: &str) -> Result<(), AllocError> {
    if !fits(text) {
        return Ok(());
    }
    let options = options(false, true);
    let settings = options.settings(true);
    let html = html_text(job.alloc, &settings, options.context(), text)?;
    job.digest.add_bytes(&html);
    Ok(())
}

fn count_rows(job: &mut Job, text: &str) -> Result<(), AllocError> {
    let answer = count_tokens(job.alloc, text.as_bytes(), BY_FLAG, &[])?;
    job.digest.add(answer.count as u64);
    Ok(())
}

fn write_rows(job: &mut Job, room: &mut [TokenRow], text: &str) -> Result<(), AllocError> {
    let answer = write_tokens(job.alloc, text.as_bytes(), BY_FLAG, &[], room)?;
    job.digest.add(answer.count as u64);
    for row in room.iter().take(answer.count) {
        job.digest
            .add((u64::from(row.hi) << 32) | u64::from(row.lo));
        job.digest
            .add((u64::from(row.kind) << 32) | u64::from(row.flags));
    }
    Ok(())
}

fn write_canon(job: &mut Job, room: &mut [u8], text: &str) -> Result<(), AllocError> {
    let answer = write_canonical(job.alloc, text.as_bytes(), BY_FLAG, &[], room)?;
    job.digest.add(answer.count as u64);
    let written = answer.count.min(room.len());
    job.digest.add_bytes(&room[..written]);
    Ok(())
}

/// What is done with a module.
#[derive(Clone, Copy)]
enum Asked {
    Imports,
    Html,
    Rows,
    Count,
    Canonical,
}

/// Room for what is written.
#[derive(Drop)]
struct Room {
    rows: Vec<TokenRow>,
    canon: Vec<u8>,
}

fn make_room(alloc: Global) -> Result<Room, AllocError> {
    let none = TokenRow {
        lo: 0,
        hi: 0,
        kind: 0,
        flags: 0,
    };
    Ok(Room {
        rows: vec![in alloc; none; ROOM]?,
        canon: vec![in alloc; 0u8; 32_768]?,
    })
}

/// Does what is asked for with the next module of a pool.
fn write_next(
    job: &mut Job,
    pool: &mut Pool,
    room: &mut Room,
    asked: Asked,
    length: usize,
) -> Result<(), AllocError> {
    let text = pool.text(job.alloc, length)?;
    let text = text.as_str();
    match asked {
        Asked::Imports => write_imports(job, text),
        Asked::Html => write_html(job, text),
        Asked::Rows => write_rows(job, &mut room.rows, text),
        Asked::Count => count_rows(job, text),
        Asked::Canonical => write_canon(job, &mut room.canon, text),
    }
}

/// Does all with modules of one length.
fn write_all(
    job: &mut Job,
    pool: &mut Pool,
    room: &mut Room,
    length: usize,
) -> Result<(), AllocError> {
    for asked in [
        Asked::Imports,
        Asked::Html,
        Asked::Rows,
        Asked::Count,
        Asked::Canonical,
    ] {
        write_next(job, pool, room, asked, length)?;
    }
    Ok(())
}

fn next_length(random: &mut Random) -> usize {
    match LENGTHS.get(random.below(LENGTHS.len())) {
        Some(length) => length.saturating_add(random.below(100)),
        None => 0,
    }
}

fn write_modules(job: &mut Job, pool: &mut Pool, room: &mut Room) -> Result<(), AllocError> {
    let mut random = Random::new(job.seed);
    for _ in 0..job.texts(1_500) {
        let length = next_length(&mut random);
        write_all(job, pool, room, length)?;
    }
    Ok(())
}

pub fn run(job: &mut Job) -> Result<(), AllocError> {
    let mut pool = job.pool(Sample::Module)?;
    let mut room = make_room(job.alloc)?;
    write_modules(job, &mut pool, &mut room)
}
