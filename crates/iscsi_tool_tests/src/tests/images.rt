//! Images: how many blocks those that are opened or made have, and why others are not served.

use crate::asserts::same;
use iscsi_tool::{Image, ImageFault, Origin};
use scsi_disk::BlockStore;
use scsi_file::OpenFault;
use std::alloc::Global;
use std::fs;
use std::process::Abort;

/// The image of these rows.
const PATH: &str = "image.img";

/// Numbers of blocks that are asked for of an image of eight, and what comes of it.
const ASKED: &[(Option<u64>, Result<u64, ImageFault>)] = &[
    (None, Ok(8)),
    (Some(8), Ok(8)),
    (Some(7), Err(ImageFault::Size { has: 8, asked: 7 })),
    (Some(9), Err(ImageFault::Size { has: 8, asked: 9 })),
];

#[test]
fn images_have_what_is_asked_for(rt: HostRuntime) {
    let _ = fs::remove_file(&rt, PATH);
    same(&rt, &made(&rt), &Ok(8), &"made");
    let exists = ImageFault::Open(OpenFault::Exists);
    same(&rt, &made(&rt), &Err(exists), &"made twice");
    for (blocks, due) in ASKED {
        same(&rt, &found(&rt, *blocks), due, blocks);
    }
    let _ = fs::remove_file(&rt, PATH);
}

/// The image of the rows on images that are read alone.
const SHARED: &str = "shared.img";

#[test]
fn an_image_is_shared_by_those_who_read_it(rt: HostRuntime) {
    let _ = fs::remove_file(&rt, SHARED);
    let image = Image {
        path: SHARED,
        origin: Origin::New { blocks: 8 },
    };
    let writer = image.open(&rt);
    let in_use = ImageFault::Open(OpenFault::InUse);
    same(
        &rt,
        &read_alone(&rt, None),
        &Err(in_use),
        &"while it is written",
    );
    drop(writer);
    for (blocks, due) in ASKED {
        same(&rt, &read_alone(&rt, *blocks), due, blocks);
    }
    let reader = image_of(None).open_read_only(&rt);
    same(&rt, &read_alone(&rt, None), &Ok(8), &"while it is read");
    let found = Image {
        path: SHARED,
        origin: Origin::Found { blocks: None },
    };
    let written = found.open(&rt);
    same(
        &rt,
        &written.err(),
        &Some(in_use),
        &"written while it is read",
    );
    drop(reader);
    let _ = fs::remove_file(&rt, SHARED);
}

// The shared image, as one of so many blocks.
fn image_of<'a>(blocks: Option<u64>) -> Image<'a> {
    Image {
        path: SHARED,
        origin: Origin::Found { blocks },
    }
}

// How many blocks the shared image has, if it is read alone as one of so many.
fn read_alone(rt: &HostRuntime, blocks: Option<u64>) -> Result<u64, ImageFault> {
    Ok(image_of(blocks).open_read_only(rt)?.blocks())
}

// How many blocks an image of eight has that is made, or why it isn't.
fn made(rt: &HostRuntime) -> Result<u64, ImageFault> {
    let image = Image {
        path: PATH,
        origin: Origin::New { blocks: 8 },
    };
    Ok(image.open(rt)?.blocks())
}

// How many blocks the image has, if it is served as one of so many.
fn found(rt: &HostRuntime, blocks: Option<u64>) -> Result<u64, ImageFault> {
    let image = Image {
        path: PATH,
        origin: Origin::Found { blocks },
    };
    Ok(image.open(rt)?.blocks())
}

/// Faults, with their lines.
const LINES: &[(ImageFault, &str)] = &[
    (ImageFault::Open(OpenFault::NotOpened), "cannot be opened"),
    (ImageFault::Open(OpenFault::ReadOnly), "may not be written"),
    (ImageFault::Open(OpenFault::NoImage), "is no disk image"),
    (ImageFault::Open(OpenFault::InUse), "is in use"),
    (ImageFault::Open(OpenFault::Empty), "is empty"),
    (ImageFault::Open(OpenFault::NotWhole), "is not whole blocks"),
    (ImageFault::Open(OpenFault::TooLarge), "is too large"),
    (ImageFault::Open(OpenFault::Exists), "is there already"),
    (ImageFault::Open(OpenFault::NotMade), "cannot be made"),
    (ImageFault::Open(OpenFault::NotSynced), "cannot be synced"),
    (ImageFault::Size { has: 8, asked: 9 }, "has 8 blocks, not 9"),
];

fn check_line(rt: &impl Abort, alloc: Global, fault: &ImageFault, line: &str) {
    let said = format!(in alloc; "{fault}").expect(rt, line);
    same(rt, &said.as_str(), &line, fault);
    same(rt, &fault.status(), &4, fault);
}

#[test]
fn lines_and_statuses_of_images(rt: HostRuntime) {
    for (fault, line) in LINES {
        check_line(&rt, rt.alloc(), fault, line);
    }
}
