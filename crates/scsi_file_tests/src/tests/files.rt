//! Images: what is refused, and what is kept.

use super::{read, same, spelled, write};
use scsi_disk::{BlockStore, StoreFault};
use scsi_file::{FileStore, HostFile, Medium, OpenFault, OpenImage};
use std::os::unix::fs::PermissionsExt;
use std::test::Fail;

/// What a file has, and why it is no image.
const REFUSED: &[(&str, &[u8], OpenFault)] = &[
    ("empty.img", b"", OpenFault::Empty),
    ("half.img", &[0; 256], OpenFault::NotWhole),
    ("block-and-a-byte.img", &[0; 513], OpenFault::NotWhole),
];

/// The fault of opening an image, which is dropped again.
fn fault_of(rt: &HostRuntime, path: &str) -> Option<OpenFault> {
    HostFile::open(rt, path).err()
}

#[test]
fn what_is_no_image_is_refused(rt: HostRuntime) -> Result<(), Fail> {
    for (path, bytes, due) in REFUSED {
        assert!(rt; std::fs::write(&rt, *path, *bytes).is_ok());
        same(&rt, &fault_of(&rt, path), &Some(*due), path);
        let _ = std::fs::remove_file(&rt, *path);
    }
    same(
        &rt,
        &fault_of(&rt, "missing.img"),
        &Some(OpenFault::NotOpened),
        &"missing",
    );
    same(
        &rt,
        &fault_of(&rt, "/dev/null"),
        &Some(OpenFault::NoImage),
        &"/dev/null",
    );
    same(
        &rt,
        &fault_of(&rt, "."),
        &Some(OpenFault::NoImage),
        &"folder",
    );
    Ok(())
}

#[test]
fn an_image_has_one_owner(rt: HostRuntime) -> Result<(), Fail> {
    let path = "owned.img";
    let _ = std::fs::remove_file(&rt, path);
    let Ok(first) = HostFile::create(&rt, path, 8) else {
        panic!(rt; "not made");
    };
    same(
        &rt,
        &fault_of(&rt, path),
        &Some(OpenFault::InUse),
        &"a second owner",
    );
    same(
        &rt,
        &HostFile::create(&rt, path, 8).err(),
        &Some(OpenFault::Exists),
        &"made twice",
    );
    drop(first);
    same(&rt, &fault_of(&rt, path), &None, &"after the first");
    let _ = std::fs::remove_file(&rt, path);
    Ok(())
}

/// Opens an image as a store, reads its first 8 blocks, writes two, and syncs it.
fn use_image(rt: &HostRuntime, path: &str) -> Option<([u8; 8], Result<(), StoreFault>, u64)> {
    let Ok(medium) = HostFile::open(rt, path) else {
        return None;
    };
    let Ok(mut store) = FileStore::new(medium) else {
        return None;
    };
    let Ok(before) = read(&mut store) else {
        return None;
    };
    let answer = write(&mut store, 6, b"yz").and(store.sync());
    Some((before, answer, store.blocks()))
}

#[test]
fn an_image_keeps_what_was_written(rt: HostRuntime) -> Result<(), Fail> {
    let path = "kept.img";
    let _ = std::fs::remove_file(&rt, path);
    assert!(rt; HostFile::create(&rt, path, 9).is_ok());
    same(
        &rt,
        &use_image(&rt, path),
        &Some(([0; 8], Ok(()), 9)),
        &"new",
    );
    let after = *b"\0\0\0\0\0\0yz";
    same(
        &rt,
        &use_image(&rt, path),
        &Some((after, Ok(()), 9)),
        &"opened again",
    );
    let _ = std::fs::remove_file(&rt, path);
    Ok(())
}

#[test]
fn blocks_of_an_image_are_appended(rt: HostRuntime) -> Result<(), Fail> {
    let path = "appended.img";
    let _ = std::fs::remove_file(&rt, path);
    assert!(rt; HostFile::create(&rt, path, 8).is_ok());
    let Ok(medium) = HostFile::open(&rt, path) else {
        return Err(Fail::from("not opened"));
    };
    let Ok(mut store) = FileStore::new(medium) else {
        return Err(Fail::from("not synced"));
    };
    let mut out = Vec::from_slice(rt.alloc(), b"before")?;
    let written = write(&mut store, 6, b"yz");
    assert!(rt; written.is_ok() && store.blocks() == 8);
    let appended = store.read_onto(5, 3, &mut out);
    let _ = std::fs::remove_file(&rt, path);
    appended?;
    assert!(rt; out.len() == 1542 && out.starts_with(b"before"));
    same(&rt, &spelled(&out[6..]), b"\0yz\0\0\0\0\0", &"appended");
    Ok(())
}

#[test]
fn a_new_image_is_its_owner_s_alone(rt: HostRuntime) -> Result<(), Fail> {
    let path = "private.img";
    let _ = std::fs::remove_file(&rt, path);
    assert!(rt; HostFile::create(&rt, path, 8).is_ok());
    let mode = std::fs::metadata(&rt, path)?.permissions().mode();
    let _ = std::fs::remove_file(&rt, path);
    same(&rt, &(mode & 0o777), &0o600, &"its permissions");
    Ok(())
}

#[test]
fn a_write_behind_the_end_of_a_cut_image_fails(rt: HostRuntime) -> Result<(), Fail> {
    let path = "cut.img";
    let _ = std::fs::remove_file(&rt, path);
    assert!(rt; HostFile::create(&rt, path, 8).is_ok());
    let Ok(medium) = HostFile::open(&rt, path) else {
        return Err(Fail::from("not opened"));
    };
    let Ok(mut store) = FileStore::new(medium) else {
        return Err(Fail::from("not synced"));
    };
    let whole = write(&mut store, 6, b"yz");
    let cut = std::fs::File::options().write(true).open(&rt, path)?;
    cut.set_len(1024)?;
    let answer = write(&mut store, 6, b"yz");
    let len = std::fs::metadata(&rt, path)?.len();
    let _ = std::fs::remove_file(&rt, path);
    same(&rt, &whole, &Ok(()), &"while it is whole");
    same(&rt, &answer, &Err(StoreFault::Device), &"behind its end");
    same(&rt, &len, &1024, &"its length");
    Ok(())
}

#[test]
fn a_new_medium_has_what_the_image_grew_by(rt: HostRuntime) -> Result<(), Fail> {
    let path = "grown.img";
    let _ = std::fs::remove_file(&rt, path);
    let Ok(first) = HostFile::create(&rt, path, 8) else {
        return Err(Fail::from("not made"));
    };
    let Some(image) = OpenImage::of(&first) else {
        return Err(Fail::from("no handle"));
    };
    let file = std::fs::File::options().write(true).open(&rt, path)?;
    let mut seen = [None; 4];
    for (bytes, blocks) in [4096, 4608, 4700, 1024].iter().zip(seen.iter_mut()) {
        file.set_len(*bytes)?;
        *blocks = image.blocks();
    }
    file.set_len(4608)?;
    let second = image.medium().map(|medium| medium.blocks());
    drop(image);
    // The first medium has the lock, and as many blocks as before.
    let fault = fault_of(&rt, path);
    let _ = std::fs::remove_file(&rt, path);
    same(
        &rt,
        &seen,
        &[Some(8), Some(9), None, Some(2)],
        &"its blocks",
    );
    same(&rt, &second, &Some(9), &"a new medium");
    same(&rt, &first.blocks(), &8, &"the first medium");
    same(&rt, &fault, &Some(OpenFault::InUse), &"the lock");
    Ok(())
}
