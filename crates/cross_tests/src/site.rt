// A site of one file: its image in both versions, and what is read of them.
use file_tree::{KindWord, LoadFault, Site, SiteError, SiteWhy, pack, upgrade};
use std::alloc::{AllocError, Global};
use std::test::Fail;
use uip_edge::{Held, MemShelf};

const IMAGE: &[u8] = b"UIPSITE1\0\x01\x0b/index.html\0\0\0\x06hello\n";

const TYPED: &[u8] = b"UIPSITE2\0\x01\x0b/index.html\x09text/html\0\0\0\x06hello\n";

/// Returns a list of one item.
fn one<T: Drop>(alloc: Global, item: T) -> Result<Vec<T>, AllocError> {
    let mut list = Vec::new(alloc);
    list.push(item)?;
    Ok(list)
}

fn shelf_of(alloc: Global, content: &[u8], fails: &[u64]) -> Result<MemShelf, AllocError> {
    let file = Held {
        name: b"h".to_vec(alloc)?,
        content: content.to_vec(alloc)?,
    };
    Ok(MemShelf::new(one(alloc, file)?, fails.to_vec(alloc)?))
}

#[test]
fn packs_the_image_of_a_list(rt: HostRuntime) -> Result<(), Fail> {
    let alloc = rt.alloc();
    let entry = Held {
        name: b"/index.html".to_vec(alloc)?,
        content: b"hello\n".to_vec(alloc)?,
    };
    let image = pack(alloc, &one(alloc, entry)?);
    assert!(rt; image.is_ok_and(|image| image.as_slice() == IMAGE));
    Ok(())
}

#[test]
fn finds_the_file_of_an_image(rt: HostRuntime) -> Result<(), Fail> {
    let mut shelf = shelf_of(rt.alloc(), IMAGE, &[])?;
    match Site::load(rt.alloc(), &mut shelf, b"h") {
        Ok(site) => {
            assert!(rt; site.count() == 1);
            assert!(rt; site.find(b"/index.html").is_some());
            assert!(rt; site.find(b"/").is_none());
        }
        Err(_) => assert!(rt; false),
    }
    Ok(())
}

#[test]
fn upgrades_an_image(rt: HostRuntime) -> Result<(), Fail> {
    let alloc = rt.alloc();
    let mut kinds = Vec::new(alloc);
    kinds.push(KindWord {
        name: b"/index.html".to_vec(alloc)?,
        kind: b"text/html".to_vec(alloc)?,
    })?;
    let Ok(site) = Site::read(alloc, IMAGE) else {
        return Err("not read".into());
    };
    let image = upgrade(alloc, &site, &kinds);
    assert!(rt; image.is_ok_and(|image| image.as_slice() == TYPED));
    Ok(())
}

fn bad(why: SiteWhy, entry: u32) -> Option<LoadFault> {
    Some(LoadFault::Bad(SiteError { why, entry }))
}

#[test]
fn reports_where_an_image_is_cut(rt: HostRuntime) {
    for len in 0..IMAGE.len() {
        let expected = match len {
            0..=7 => bad(SiteWhy::Magic, 0),
            8 | 9 => bad(SiteWhy::Cut, 0),
            _ => bad(SiteWhy::Cut, 1),
        };
        assert!(rt; Site::read(rt.alloc(), &IMAGE[..len]).err() == expected);
    }
    assert!(rt; Site::empty(rt.alloc()).count() == 0);
}

#[test]
fn reports_why_an_image_is_bad(rt: HostRuntime) {
    let rows: [(&[u8], SiteWhy, u32); 7] = [
        (
            b"UIPSITE1\0\x01\x0b/index.html\0\0\0\x06hello\n!",
            SiteWhy::Rest,
            0,
        ),
        (
            b"UIPSITE1\0\x01\0/index.html\0\0\0\x06hello\n",
            SiteWhy::Name,
            1,
        ),
        (
            b"UIPSITE1\0\x01\x0b/index?html\0\0\0\x06hello\n",
            SiteWhy::Name,
            1,
        ),
        (
            b"UIPSITE1\x04\x01\x0b/index.html\0\0\0\x06hello\n",
            SiteWhy::TooMany,
            0,
        ),
        (
            b"UIPSITE1\0\x02\x02/x\0\0\0\0\x02/x\0\0\0\0",
            SiteWhy::Twice,
            2,
        ),
        (
            b"UIPSITE1\0\x01\x08/a.shtml\0\0\0\x06%!:/x\n",
            SiteWhy::Include,
            1,
        ),
        (
            b"UIPSITE2\0\x01\x0b/index.html\x41text/html\0\0\0\x06hello\n",
            SiteWhy::Kind,
            1,
        ),
    ];
    for (image, why, entry) in rows {
        assert!(rt; Site::read(rt.alloc(), image).err() == bad(why, entry));
    }
}

#[test]
fn reports_a_fault_of_the_shelf(rt: HostRuntime) -> Result<(), Fail> {
    let alloc = rt.alloc();
    let missing = Site::load(alloc, &mut shelf_of(alloc, IMAGE, &[])?, b"g");
    assert!(rt; missing.err() == Some(LoadFault::Shelf));
    for call in [1, 2] {
        let failed = Site::load(alloc, &mut shelf_of(alloc, IMAGE, &[call])?, b"h");
        assert!(rt; failed.err() == Some(LoadFault::Shelf));
    }
    let cut = Site::load(alloc, &mut shelf_of(alloc, &IMAGE[..15], &[])?, b"h");
    assert!(rt; cut.err() == bad(SiteWhy::Cut, 1));
    Ok(())
}
