// The example site, and a site of as many files as there can be.
use crate::example_image::IMAGE;
use file_tree::{Held, Site, pack};
use std::alloc::{AllocError, Global};
use std::test::Fail;

/// [add: counter] The greatest length of a page of counters.
/// [add: content-type] A file of the site with that ending.
#[test]
fn reads_the_example_site(rt: HostRuntime) -> Result<(), Fail> {
    let rows: [(&[u8], &[u8], usize); 6] = [
        (b"/index.html", b"text/html", 606),
        (b"/stats.shtml", b"text/html", 1848),
        (b"/footer.html", b"text/html", 122),
        (b"/style.css", b"text/css", 376),
        (b"/logo.png", b"image/png", 320),
        (b"/404.html", b"text/html", 287),
    ];
    match Site::read(rt.alloc(), IMAGE) {
        Ok(site) => {
            assert!(rt; site.count() == rows.len());
            for (name, kind, greatest) in rows {
                match site.find(name) {
                    Some(id) => {
                        assert!(rt; site.kind(id) == kind);
                        assert!(rt; site.greatest_page(id) == greatest);
                    }
                    None => assert!(rt; false),
                }
            }
        }
        Err(_) => assert!(rt; false),
    }
    Ok(())
}

fn file_named(alloc: Global, number: usize) -> Result<Held, AllocError> {
    let name = format!(in alloc; "/f{number}")?;
    Ok(Held {
        name: name.as_bytes().to_vec(alloc)?,
        content: name.as_bytes().to_vec(alloc)?,
    })
}

#[test]
fn finds_each_of_1024_files(rt: HostRuntime) -> Result<(), Fail> {
    let alloc = rt.alloc();
    let mut list = Vec::new(alloc);
    for number in 0..1024 {
        list.push(file_named(alloc, number)?)?;
    }
    let Ok(image) = pack(alloc, &list) else {
        return Err("not packed".into());
    };
    let Ok(site) = Site::read(alloc, &image) else {
        return Err("not read".into());
    };
    for (number, entry) in list.iter().enumerate() {
        match site.find(&entry.name) {
            Some(id) => assert!(rt; id.0 as usize == number),
            None => assert!(rt; false),
        }
    }
    assert!(rt; site.find(b"/f1024").is_none());
    assert!(rt; site.find(b"/").is_none());
    for (rank, number) in [0, 1, 10].iter().enumerate() {
        assert!(rt; rank < site.order.len());
        assert!(rt; site.order[rank].0 == *number);
    }
    Ok(())
}
