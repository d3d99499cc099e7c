// The work on images, over a shelf and a sink in memory, and the shelf over the system's files.
use crate::file_shelf::FileShelf;
use crate::harness::{IMAGE, Trial, bad, check_all, check_bad_words};
use crate::status::Status;
use crate::tests::PING;
use site_commands::SiteWhy;
use std::fs;
use std::test::Fail;
use uip_edge::Shelf;

// A content type of 65 bytes.
const LONG_KIND: &str =
    "/index.html=aaaaaaaaaaaaaaaaaaaaaaaaaaaaaaaaaaaaaaaaaaaaaaaaaaaaaaaaaaaaaaaaa";

const CORNERS: &[u8] =
    b"UIPSITE1\0\x02\x08/a.shtml\0\0\0\x20x%y%!:/e.txt\n%! nosuch\nz%! ticks\x06/e.txt\0\0\0\0";

const INCLUDE: &[u8] = b"UIPSITE1\0\x02\x08/b.shtml\0\0\0\x0ca%!:/c.txt\nb\x06/c.txt\0\0\0\x03%!x";

const GOOD: &[u8] = b"/index.html 86\nfiles 1\n";

fn checking<'a>(h: &'a [u8], output: &'a [u8], status: Status) -> Trial<'static, 'a> {
    Trial::over(&["check", "h"], h, output, status)
}

#[test]
fn checks_each_prefix_of_an_image(rt: HostRuntime) -> Result<(), Fail> {
    for len in 0..=IMAGE.len() {
        let (output, status): (&[u8], Status) = match len {
            0..=7 => (b"bad site magic 0\n", bad(SiteWhy::Magic, 0)),
            8 | 9 => (b"bad site cut 0\n", bad(SiteWhy::Cut, 0)),
            10..=31 => (b"bad site cut 1\n", bad(SiteWhy::Cut, 1)),
            _ => (GOOD, Status::Done),
        };
        checking(&IMAGE[..len], output, status).check(&rt, rt.alloc(), 1)?;
    }
    Ok(())
}

#[test]
fn checks_bad_images(rt: HostRuntime) -> Result<(), Fail> {
    let rows: [(&[u8], &[u8], SiteWhy, u32); 7] = [
        (
            b"UIPSITE1\0\x01\x0b/index.html\0\0\0\x06hello\n!",
            b"bad site rest 0\n",
            SiteWhy::Rest,
            0,
        ),
        (
            b"UIPSITE1\0\x01\0/index.html\0\0\0\x06hello\n",
            b"bad site name 1\n",
            SiteWhy::Name,
            1,
        ),
        (
            b"UIPSITE1\0\x01\x0b/index?html\0\0\0\x06hello\n",
            b"bad site name 1\n",
            SiteWhy::Name,
            1,
        ),
        (
            b"UIPSITE1\x04\x01\x0b/index.html\0\0\0\x06hello\n",
            b"bad site many 0\n",
            SiteWhy::TooMany,
            0,
        ),
        (
            b"UIPSITE1\0\x02\x02/x\0\0\0\0\x02/x\0\0\0\0",
            b"bad site twice 2\n",
            SiteWhy::Twice,
            2,
        ),
        (
            b"UIPSITE1\0\x01\x08/a.shtml\0\0\0\x06%!:/x\n",
            b"bad site include 1\n",
            SiteWhy::Include,
            1,
        ),
        (
            b"UIPSITE2\0\x01\x0b/index.html\x41text/html\0\0\0\x06hello\n",
            b"bad site kind 1\n",
            SiteWhy::Kind,
            1,
        ),
    ];
    for (image, output, why, entry) in rows {
        checking(image, output, bad(why, entry)).check(&rt, rt.alloc(), 1)?;
    }
    Ok(())
}

#[test]
fn checks_images(rt: HostRuntime) -> Result<(), Fail> {
    let alloc = rt.alloc();
    let good: [(&[u8], &[u8]); 3] = [
        (CORNERS, b"/a.shtml 94\n/e.txt 81\nfiles 2\n"),
        (INCLUDE, b"/b.shtml 85\n/c.txt 84\nfiles 2\n"),
        (b"UIPSITE1\0\0", b"files 0\n"),
    ];
    for (image, output) in good {
        checking(image, output, Status::Done).check(&rt, alloc, 1)?;
    }
    let bad: [&[&str]; 3] = [&["check"], &["check", "h", "h"], &[]];
    check_bad_words(&rt, alloc, PING, &bad)?;
    let whole = checking(IMAGE, GOOD, Status::Done);
    let lacking = checking(IMAGE, b"", Status::ShelfFault);
    let trials = [
        Trial {
            shelf_fails: &[1],
            ..lacking
        },
        Trial {
            shelf_fails: &[2],
            ..lacking
        },
        Trial {
            shelf_fails: &[3],
            ..whole
        },
        Trial {
            words: &["check", "g"],
            ..lacking
        },
        Trial {
            words: &["check", "-"],
            ..lacking
        },
        Trial {
            room: 7,
            ..checking(IMAGE, &GOOD[..7], Status::WriteFault)
        },
        Trial {
            room: 7,
            ..checking(b"UIPSITE", b"bad sit", Status::WriteFault)
        },
    ];
    check_all(&rt, alloc, &trials)
}

/// Returns the report of `check` on the image with the highest bit of the byte at an offset changed.
fn reported_of_damage(place: usize) -> (&'static [u8], Status) {
    match place {
        0..=7 => (b"bad site magic 0\n", bad(SiteWhy::Magic, 0)),
        8 => (b"bad site many 0\n", bad(SiteWhy::TooMany, 0)),
        9 => (b"bad site cut 2\n", bad(SiteWhy::Cut, 2)),
        10..=21 => (b"bad site name 1\n", bad(SiteWhy::Name, 1)),
        22..=25 => (b"bad site cut 1\n", bad(SiteWhy::Cut, 1)),
        _ => (GOOD, Status::Done),
    }
}

#[test]
fn checks_damaged_images(rt: HostRuntime) -> Result<(), Fail> {
    let alloc = rt.alloc();
    let mut image = IMAGE.to_vec(alloc)?;
    for place in 0..image.len() {
        image[place] ^= 0x80;
        let (output, status) = reported_of_damage(place);
        checking(&image, output, status).check(&rt, alloc, 1)?;
        image[place] ^= 0x80;
    }
    Ok(())
}

/// Returns the next of some pseudo-random bytes.
fn next_byte(state: &mut u32) -> u8 {
    *state = state.wrapping_mul(1_664_525).wrapping_add(1_013_904_223);
    (*state >> 24) as u8
}

#[test]
fn checks_random_bytes(rt: HostRuntime) -> Result<(), Fail> {
    let alloc = rt.alloc();
    let mut state = 7;
    let mut bytes = Vec::new(alloc);
    for _ in 0..200 {
        let row = checking(&bytes, b"bad site magic 0\n", bad(SiteWhy::Magic, 0));
        row.check(&rt, alloc, 1)?;
        bytes.push(next_byte(&mut state))?;
    }
    Ok(())
}

#[test]
fn knows_its_words(rt: HostRuntime) -> Result<(), Fail> {
    let bad: [&[&str]; 8] = [
        &["pack"],
        &["pack", "/x=h", "h"],
        &["upgrade"],
        &["upgrade", "h", "/index.html"],
        &["upgrade", "h", "/index.html="],
        &["upgrade", "h", "/index.html=\n"],
        &["upgrade", "h", LONG_KIND],
        &["page", "h"],
    ];
    check_bad_words(&rt, rt.alloc(), PING, &bad)
}

#[test]
fn packs_files(rt: HostRuntime) -> Result<(), Fail> {
    let hello: &[u8] = b"hello\n";
    let rows = [
        Trial::over(&["pack", "/index.html=h"], hello, IMAGE, Status::Done),
        Trial::over(
            &["pack", "/x=h", "/y=i"],
            b"",
            b"UIPSITE1\0\x02\x02/x\0\0\0\0\x02/y\0\0\0\x06hello\n",
            Status::Done,
        ),
        Trial::over(&["pack", "=h"], hello, b"", bad(SiteWhy::Name, 1)),
        Trial::over(&["pack", "/x=h", "y=h"], hello, b"", bad(SiteWhy::Name, 2)),
        Trial::over(
            &["pack", "/x=h", "/x=i"],
            hello,
            b"",
            bad(SiteWhy::Twice, 2),
        ),
        Trial::over(
            &["pack", "/x.shtml=h"],
            b"%!:/y",
            b"",
            bad(SiteWhy::Include, 1),
        ),
        Trial::over(&["pack", "/x=h", "/y=g"], hello, b"", Status::ShelfFault),
        Trial::over(&["pack", "/x=h=i"], hello, b"", Status::ShelfFault),
        Trial::over(&["pack", "/x="], hello, b"", Status::ShelfFault),
        Trial {
            shelf_fails: &[3],
            ..Trial::over(&["pack", "/x=h", "/y=i"], hello, b"", Status::ShelfFault)
        },
        Trial {
            room: 8,
            ..Trial::over(
                &["pack", "/index.html=h"],
                hello,
                &IMAGE[..8],
                Status::WriteFault,
            )
        },
    ];
    check_all(&rt, rt.alloc(), &rows)
}

#[test]
fn stops_reading_where_it_is_too_long(rt: HostRuntime) -> Result<(), Fail> {
    let alloc = rt.alloc();
    let longest = vec![in alloc; 0u8; 16_777_216]?;
    let (h, i): (&[u8], &[u8]) = (&longest, b"1");
    let rows = [
        Trial::over(&["pack", "/x=h", "/y=g"], h, b"", Status::ShelfFault),
        Trial::over(&["pack", "/x=h", "/y=i"], h, b"", bad(SiteWhy::TooLong, 0)),
        Trial {
            i,
            ..Trial::over(
                &["pack", "/x=h", "/y=i", "/z=g"],
                h,
                b"",
                bad(SiteWhy::TooLong, 0),
            )
        },
        Trial::over(&["pack", "/x=h"], h, b"", bad(SiteWhy::TooLong, 0)),
    ];
    check_all(&rt, alloc, &rows)
}

#[test]
fn upgrades_images(rt: HostRuntime) -> Result<(), Fail> {
    let typed: &[u8] = b"UIPSITE2\0\x01\x0b/index.html\x09text/html\0\0\0\x06hello\n";
    let plain: &[u8] = b"UIPSITE2\0\x01\x0b/index.html\x01 \0\0\0\x06hello\n";
    let rows = [
        Trial::over(&["upgrade", "h"], IMAGE, typed, Status::Done),
        Trial::over(&["upgrade", "h"], typed, typed, Status::Done),
        Trial::over(
            &["upgrade", "h", "/index.html= "],
            IMAGE,
            plain,
            Status::Done,
        ),
        Trial::over(
            &["upgrade", "h", "/index.html=x", "/y=z", "/index.html= "],
            typed,
            plain,
            Status::Done,
        ),
        Trial::over(
            &["upgrade", "h", "index.html=x"],
            IMAGE,
            typed,
            Status::Done,
        ),
        Trial::over(&["upgrade", "g"], IMAGE, b"", Status::ShelfFault),
        Trial::over(&["upgrade", "-"], IMAGE, b"", Status::ShelfFault),
        Trial::over(&["upgrade", "h"], &IMAGE[..15], b"", bad(SiteWhy::Cut, 1)),
        Trial::over(
            &["check", "h"],
            b"UIPSITE2\0\x01\x0b/index.html\x18text/html; charset=utf-8\0\0\0\x06hello\n",
            b"/index.html 101\nfiles 1\n",
            Status::Done,
        ),
    ];
    check_all(&rt, rt.alloc(), &rows)
}

/// Reads up to four bytes from an offset on.
fn read_at<H: Shelf>(shelf: &mut H, name: &[u8], at: u64, expected: Option<&[u8]>) -> bool {
    let mut buf = [0; 4];
    match (shelf.read(name, at, &mut buf), expected) {
        (Ok(count), Some(bytes)) => count <= 4 && &buf[..count] == bytes,
        (Err(_), None) => true,
        _ => false,
    }
}

#[test]
fn reads_files_of_the_system(rt: HostRuntime) -> Result<(), Fail> {
    let path = "uipd-shelf-test";
    fs::write(&rt, path, b"a file of bytes")?;
    let mut shelf = FileShelf::new(&rt);
    let name = path.as_bytes();
    assert!(rt; read_at(&mut shelf, name, 0, Some(b"a fi")));
    assert!(rt; read_at(&mut shelf, name, 4, Some(b"le o")));
    assert!(rt; read_at(&mut shelf, name, 12, Some(b"tes")));
    assert!(rt; read_at(&mut shelf, name, 1, Some(b" fil")));
    assert!(rt; read_at(&mut shelf, name, 0, Some(b"a fi")));
    assert!(rt; read_at(&mut shelf, name, 15, Some(b"")));
    assert!(rt; read_at(&mut shelf, name, 400, Some(b"")));
    assert!(rt; read_at(&mut shelf, b"uipd-no-such-file", 0, None));
    assert!(rt; read_at(&mut shelf, b"\xff\xfe", 0, None));
    assert!(rt; read_at(&mut shelf, name, 0, Some(b"a fi")));
    fs::remove_file(&rt, path)?;
    Ok(())
}

pub const HITS: &[u8] = b"UIPSITE1\0\x01\x08/h.shtml\0\0\0\x17%! file-stats /h.shtml\n";

const HELLO_PAGE: &[u8] =
    b"HTTP/1.0 200 OK\r\nServer: uIP/1.0\r\nConnection: close\r\nContent-type: text/html\r\n\r\nhello\n";

const MISSING_PAGE: &[u8] =
    b"HTTP/1.0 404 Not found\r\nServer: uIP/1.0\r\nConnection: close\r\nContent-type: text/html\r\n\r\nnot found\n";

fn paging<'w, 'a>(words: &'w [&'w str], image: &'a [u8], output: &'a [u8]) -> Trial<'w, 'a> {
    Trial::over(words, image, output, Status::Done)
}

#[test]
fn writes_pages(rt: HostRuntime) -> Result<(), Fail> {
    let rows = [
        paging(&["page", "h", "/?a=b"], IMAGE, HELLO_PAGE),
        paging(&["page", "h", "/nosuch"], IMAGE, MISSING_PAGE),
        paging(&["page", "-", "/"], IMAGE, MISSING_PAGE),
        paging(&["page", "h", "x"], IMAGE, b""),
        paging(&["page", "h", ""], IMAGE, b""),
        paging(
            &["page", "h", "/a.shtml"],
            CORNERS,
            b"HTTP/1.0 200 OK\r\nServer: uIP/1.0\r\nConnection: close\r\nContent-type: text/html\r\n\r\nx%yz         0",
        ),
        paging(
            &["page", "h", "/b.shtml HTTP/1.0"],
            INCLUDE,
            b"HTTP/1.0 200 OK\r\nServer: uIP/1.0\r\nConnection: close\r\nContent-type: text/html\r\n\r\na%!xb",
        ),
        paging(
            &["page", "h", "/h.shtml"],
            HITS,
            b"HTTP/1.0 200 OK\r\nServer: uIP/1.0\r\nConnection: close\r\nContent-type: text/html\r\n\r\n         0",
        ),
        Trial {
            room: 60,
            status: Status::WriteFault,
            ..paging(&["page", "h", "/"], IMAGE, &HELLO_PAGE[..60])
        },
        paging(&["page", "k", "/"], IMAGE, b"").ending(Status::ShelfFault),
        paging(&["page", "h", "/"], b"UIPSITE1\0\0!", b"").ending(bad(SiteWhy::Rest, 0)),
    ];
    check_all(&rt, rt.alloc(), &rows)
}
