//! Stores as they are met: books, many small objects, one wide one, deep ones, and those that
//! nobody looked after.

use crate::builder::Builder;
use crate::content::Content;
use crate::tree::Tree;
use std::alloc::{AllocError, Global};

// Files of a folder of a wide object, and a step that leads through all of them.
const FOLDER: u64 = 1000;

const STEP: u64 = 617;

// Long names, of two and three bytes a letter.
const LONG: &[&str] = &[
    "Ежегодный отчёт научной библиотеки имени академика за тысяча девятьсот",
    "国立国会図書館所蔵資料目録・昭和初期刊行物・第一巻・附録および正誤表を含む・保存用複製版",
    "Ἀθηναίων πολιτεία, ἐκ τῶν παπύρων τοῦ Βρεταννικοῦ Μουσείου, τόμος",
];

/// Which store.
#[derive(Clone, Copy)]
pub enum Kind {
    Books,
    Many,
    Wide,
    Deep,
    Neglected,
}

/// The store of a kind, of so many objects, or files of the wide object, or sites.
pub fn made(alloc: Global, kind: Kind, size: u64, seed: u64) -> Result<Tree, AllocError> {
    match kind {
        Kind::Books => books(alloc, size, seed),
        Kind::Many => many(alloc, size, seed),
        Kind::Wide => wide(alloc, size, seed),
        Kind::Deep => deep(alloc, size, seed),
        Kind::Neglected => neglected(alloc, size, seed),
    }
}

// Books by names of archival resource keys: sites some 14 shorties deep, each with its METS file,
// page images and texts.
fn books(alloc: Global, size: u64, seed: u64) -> Result<Tree, AllocError> {
    let mut store = Builder::start(alloc, seed, "uc2.")?;
    for i in 0..size {
        let mut id = store.letters("ark+=13960=t", 8)?;
        if i % 3 == 0 {
            id.extend_from_slice(b"^20copy^3f2")?;
        }
        id.extend_from_slice(b",v7")?;
        let shorties = store.enter_site(&id)?;
        store.enter(&id)?;
        book(&mut store)?;
        store.leave(shorties.saturating_add(1));
    }
    Ok(store.done())
}

fn book(store: &mut Builder) -> Result<(), AllocError> {
    store.file_between("mets.xml", 30_000, 50_000)?;
    let pages = store.draw.between(50, 110);
    store.enter(b"images")?;
    for page in 0..pages {
        let name = format!(in store.alloc; "{page:08}.jp2")?;
        let least = store.draw.between(20_000, 60_000);
        let most = if store.draw.is_one_of(5) {
            500_000
        } else {
            70_000
        };
        store.file_between(&name, least, most)?;
    }
    store.leave(1);
    store.enter(b"texts")?;
    let blank = Content::of(12, &mut store.draw);
    for page in 0..pages {
        let name = format!(in store.alloc; "{page:08}.txt")?;
        if store.draw.is_one_of(8) {
            store.file_of(&name, blank)?;
        } else {
            store.file_between(&name, 0, 3000)?;
        }
    }
    store.leave(1);
    Ok(())
}

// Theses, records and letters: objects of one to five small files.
fn many(alloc: Global, size: u64, seed: u64) -> Result<Tree, AllocError> {
    let mut store = Builder::start(alloc, seed, "ark:/1")?;
    for _ in 0..size {
        let letters = store.draw.between(8, 12);
        let id = store.letters("xt", letters)?;
        let shorties = store.enter_site(&id)?;
        store.enter(&id)?;
        small(&mut store)?;
        store.leave(shorties.saturating_add(1));
    }
    Ok(store.done())
}

fn small(store: &mut Builder) -> Result<(), AllocError> {
    small_file(store, "record.xml")?;
    let more = store.draw.between(0, 4);
    if more == 0 {
        return Ok(());
    }
    small_file(store, "thesis.pdf")?;
    if more == 1 {
        return Ok(());
    }
    store.enter(b"letters")?;
    for i in 1..more {
        let name = format!(in store.alloc; "letter-{i:04}.txt")?;
        small_file(store, &name)?;
    }
    store.leave(1);
    Ok(())
}

// From 300 to 5,000 bytes, rather few than many.
fn small_file(store: &mut Builder, name: &str) -> Result<(), AllocError> {
    let most = match store.draw.between(0, 3) {
        0 => 5000,
        1 => 2500,
        2 => 1250,
        _ => 625,
    };
    store.file_between(name, 300, most)
}

// A data set: one object of small files, a tenth of them equal to others.
fn wide(alloc: Global, size: u64, seed: u64) -> Result<Tree, AllocError> {
    let mut store = Builder::start(alloc, seed, "doi:")?;
    store.enter_site(b"10=5061=dryad,234")?;
    store.enter(b"dataset")?;
    for folder in 0..size.div_ceil(FOLDER) {
        let name = format!(in store.alloc; "set-{folder:04}")?;
        store.enter(name.as_bytes())?;
        samples(&mut store)?;
        store.leave(1);
    }
    Ok(store.done())
}

fn samples(store: &mut Builder) -> Result<(), AllocError> {
    let mut common = Content::of(200, &mut store.draw);
    for i in 0..FOLDER {
        let number = i.wrapping_mul(STEP) % FOLDER;
        let name = format!(in store.alloc; "sample-{number:06}.csv")?;
        if store.draw.is_one_of(10) {
            store.file_of(&name, common)?;
            continue;
        }
        store.file_between(&name, 50, 350)?;
        if store.draw.is_one_of(3) {
            common = Content::of(200, &mut store.draw);
        }
    }
    Ok(())
}

// Objects of twenty files, in folders some 200 deep or under long names.
fn deep(alloc: Global, size: u64, seed: u64) -> Result<Tree, AllocError> {
    let mut store = Builder::start(alloc, seed, "")?;
    for i in 0..size {
        let id = store.letters("deep", 8)?;
        let shorties = store.enter_site(&id)?;
        store.enter(b"object")?;
        if i % 2 == 0 {
            nested(&mut store)?;
        } else {
            long_named(&mut store)?;
        }
        store.leave(shorties.saturating_add(1));
    }
    Ok(store.done())
}

fn nested(store: &mut Builder) -> Result<(), AllocError> {
    let step = store.draw.between(8, 14);
    for file in 0..20u64 {
        for level in 0..step {
            let name = format!(in store.alloc; "d{file}-{level}")?;
            store.enter(name.as_bytes())?;
        }
        store.file_between("file.txt", 100, 2000)?;
    }
    store.leave(step.wrapping_mul(20) as usize);
    Ok(())
}

fn long_named(store: &mut Builder) -> Result<(), AllocError> {
    let folders = store.draw.between(8, 12);
    for folder in 0..folders {
        let long = long_name(folder);
        let name = format!(in store.alloc; "{long} {folder}")?;
        store.enter(name.as_bytes())?;
    }
    for file in 0..20u64 {
        let long = long_name(file);
        let name = format!(in store.alloc; "{long} {file}.txt")?;
        store.file_between(&name, 100, 2000)?;
    }
    store.leave(folders as usize);
    Ok(())
}

fn long_name(i: u64) -> &'static str {
    LONG.get((i % 3) as usize).copied().unwrap_or("long")
}

// Sites of most causes, three in four without an object as it should be, with what desktops leave
// behind beside everything.
fn neglected(alloc: Global, size: u64, seed: u64) -> Result<Tree, AllocError> {
    let mut store = Builder::start(alloc, seed, "")?;
    store.file("README.txt", 100)?;
    for i in 0..size {
        let letters = store.draw.between(7, 12);
        let mut id = store.letters("", letters)?;
        match i % 20 {
            0 => id.extend_from_slice(b"^zz")?,
            1 => id.extend_from_slice(b"^ff")?,
            _ => {}
        }
        let shorties = store.enter_site(&id)?;
        store.file(".DS_Store", 600)?;
        site(&mut store, i % 20)?;
        store.leave(shorties);
    }
    Ok(store.done())
}

fn site(store: &mut Builder, case: u64) -> Result<(), AllocError> {
    match case {
        2..6 => {}
        6..9 => two_folders(store)?,
        9..11 => store.file_between("loose.txt", 10, 400)?,
        11 => with_other(store)?,
        12..15 => past(store)?,
        _ => tended(store)?,
    }
    Ok(())
}

fn two_folders(store: &mut Builder) -> Result<(), AllocError> {
    for name in ["scans", "texts"] {
        store.enter(name.as_bytes())?;
        store.file(".DS_Store", 600)?;
        store.file_between("text.txt", 10, 900)?;
        store.leave(1);
    }
    Ok(())
}

fn with_other(store: &mut Builder) -> Result<(), AllocError> {
    store.enter(b"object")?;
    store.file_between("first.txt", 10, 900)?;
    store.other("link")?;
    store.leave(1);
    Ok(())
}

// Below a name of one letter no identifier goes on.
fn past(store: &mut Builder) -> Result<(), AllocError> {
    store.enter(b"k")?;
    store.enter(b"ab")?;
    store.leave(2);
    Ok(())
}

fn tended(store: &mut Builder) -> Result<(), AllocError> {
    store.enter(b"object")?;
    store.file(".DS_Store", 600)?;
    store.file("Thumbs.db", 900)?;
    store.file_between("text.txt", 10, 900)?;
    store.enter(b"empty")?;
    store.leave(2);
    Ok(())
}
