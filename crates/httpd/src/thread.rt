ghost use Rattle.std.specs.Prelude.{◌≡◌, ◌+◌, ◌<◌, ◌^◌};
ghost use Rattle.httpd.specs.Places.{moved, thread_place};

use file_tree::FileId;

/// The offset at which a reply resumes.
/// [add: piece] A variant with its offset, and its arm in `moved`.
#[derive(Clone, Copy, Debug, PartialEq, Eq)]
pub enum Thread {
    /// In the head.
    Head { at: u32 },
    /// In the line of the content type.
    Kind { at: u32 },
    /// In the body: in a text run, at the start of a piece, or at the end.
    Body { at: u32 },
    /// In the bytes of a file that a script includes. The script continues at `next`.
    Inside { next: u32, file: FileId, at: u32 },
    /// In the text of a call's record. The script continues at `next`.
    Making { next: u32, at: u32 },
    /// At the end of the reply.
    End,
}

/// Returns the thread `count` bytes further in its piece.
pub(crate) fn moved(thread: Thread, count: u32) -> Thread
    requires { thread_place thread + count < 2 ^ 32 }
    ensures { result ≡ moved thread count }
{
    match thread {
        Thread::Head { at } => Thread::Head { at: at + count },
        Thread::Kind { at } => Thread::Kind { at: at + count },
        Thread::Body { at } => Thread::Body { at: at + count },
        Thread::Inside { next, file, at } => Thread::Inside {
            next,
            file,
            at: at + count,
        },
        Thread::Making { next, at } => Thread::Making {
            next,
            at: at + count,
        },
        Thread::End => Thread::End,
    }
}
