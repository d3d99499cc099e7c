// At full size, so that no failure for lack of memory hides a smaller limit: the longest schedule with 64 clients, the largest
// image, and the longest name.
use file_tree::{Held, Site, pack};
use link_replay::play;
use link_schedule::Schedule;
use std::alloc::{AllocError, Global};
use std::test::Fail;

const LONGEST_TEXT: usize = 4_194_304;

const LARGEST_IMAGE: usize = 16_777_216;

/// Returns 64 clients, each of which opens, and lines that lose everything up to the greatest length of a text.
fn longest_schedule(alloc: Global) -> Result<Vec<u8>, AllocError> {
    let mut text = Vec::new(alloc);
    for number in 0..64 {
        let line = format!(in alloc; "client 10.0.0.2 {} 0 536 get /\n", 1025 + number)?;
        text.extend_from_slice(line.as_bytes())?;
    }
    for number in 0..64 {
        let line = format!(in alloc; "open {}\n", 1 + number)?;
        text.extend_from_slice(line.as_bytes())?;
    }
    let left = LONGEST_TEXT.saturating_sub(text.len());
    for _ in 0..left % 5 {
        text.extend_from_slice(b"round\n")?;
    }
    let left = LONGEST_TEXT.saturating_sub(text.len());
    for _ in 0..left / 5 {
        text.extend_from_slice(b"lose\n")?;
    }
    Ok(text)
}

#[test]
fn plays_the_longest_schedule(rt: HostRuntime) -> Result<(), Fail> {
    let alloc = rt.alloc();
    let text = longest_schedule(alloc)?;
    assert!(rt; text.len() == LONGEST_TEXT);
    let Ok(schedule) = Schedule::read(alloc, &text) else {
        return Err("not read".into());
    };
    assert!(rt; schedule.clients.len() == 64);
    let Ok(world) = play(alloc, &schedule, Site::empty(alloc)) else {
        return Err("not played".into());
    };
    assert!(rt; world.sides.len() == 64);
    Ok(())
}

/// Returns the image of one file that fills it.
fn image_of(alloc: Global, name: &[u8], size: usize) -> Result<Option<Vec<u8>>, AllocError> {
    let mut list = Vec::new(alloc);
    list.push(Held {
        name: name.to_vec(alloc)?,
        content: vec![in alloc; b'x'; size]?,
    })?;
    Ok(pack(alloc, &list).ok())
}

#[test]
fn reads_the_largest_image(rt: HostRuntime) -> Result<(), Fail> {
    let alloc = rt.alloc();
    // The head of an image has ten bytes, and that of a file with a name of two has seven.
    let Some(image) = image_of(alloc, b"/x", LARGEST_IMAGE - 17)? else {
        return Err("not packed".into());
    };
    assert!(rt; image.len() == LARGEST_IMAGE);
    assert!(rt; Site::read(alloc, &image).is_ok());
    assert!(rt; image_of(alloc, b"/x", LARGEST_IMAGE - 16)?.is_none());
    Ok(())
}

#[test]
fn knows_the_longest_names(rt: HostRuntime) -> Result<(), Fail> {
    let alloc = rt.alloc();
    let mut name = b"/".to_vec(alloc)?;
    name.extend_from_slice(&[b'a'; 63])?;
    let Some(image) = image_of(alloc, &name, 1)? else {
        return Err("not packed".into());
    };
    let Ok(site) = Site::read(alloc, &image) else {
        return Err("not read".into());
    };
    assert!(rt; site.find(&name).is_some());
    name.push(b'a')?;
    assert!(rt; image_of(alloc, &name, 1)?.is_none());
    Ok(())
}
