//! The texts of the program.

ghost use Rattle.uip_edge.specs.Prelude.{sink_view};
ghost use Rattle.uipd.specs.Help.{Shows};

use crate::status::Status;
use uip_edge::Sink;

/// The text of `--help`: each command in a line, the statuses, and where to read more.
pub(crate) const HELP: &[u8] = b"\
uipd: ping and web pages over a serial line (SLIP), from one small stack

  uipd serve SITE ADDR [pace K] [items N] [tty]      serve the line on standard input and output
  uipd ether SITE ADDR MAC [pace K] [items N] [tty]  the same over Ethernet frames
  uipd desk SITE ADDR [pace K] [items N] [tty]       serve pages, and a shell at port 23
  uipd check SITE                                    list an image's files, or its first fault
  uipd pack NAME=FILE ..                             write the image of files
  uipd upgrade SITE [NAME=TYPE ..]                   write the image with content types
  uipd page SITE TARGET                              write a page as a fresh node serves it
  uipd replay SITE SCHEDULE [show]                   play a schedule with clients, and report
  uipd load SITE SEED CLIENTS                        play the schedule that a number makes
  uipd dump [items N] [tty]                          write a line of text for each frame
  uipd pcap [items N] [tty]                          write a capture file of the line
  uipd slip [items N]                                write the serial line of a capture file
  uipd resolve OWN SERVER ID [items N] NAME .. [tty] ask a DNS server for names over the line
  uipd --help                                        write this
  uipd --version                                     write the version

SITE is the file of an image, or - for a site without files. ADDR is the address of the node.
pace K: each K-th byte is a tick; tty: so is a read of nothing; items N: stop behind N of both.

Exit status: 0 done, 1 no such words, 2 a file failed, 3 the line failed, 4 the output failed,
5 N items were taken, 6 a bad image, 7 a bad schedule, 8 out of memory, 9 a bad capture file.

Read more: man uipd, README.md, docs/FORMATS.md, docs/LIMITS.md
";

/// The text of `--version`.
pub(crate) const VERSION: &[u8] = b"uipd 1.1\n";

/// Writes a text of the program.
pub(crate) fn show<K: Sink>(text: &[u8], out: &mut K) -> Status
    ensures { Shows text.now (sink_view K.Sink out.old) (sink_view K.Sink out.new) result }
{
    match out.write_whole(text) {
        Ok(()) => Status::Done,
        Err(_) => Status::WriteFault,
    }
}
