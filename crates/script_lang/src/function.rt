//! The functions of uIP that a script can call.

ghost use Rattle.std.specs.Prelude.{◌≡◌};
ghost use Rattle.script_lang.specs.Functions.{function_named, length_at_most};

use crate::calls::Calls;
use crate::same::is_word;

/// A function that a script calls by its name.
/// [add: function] A variant, its name, its greatest length, and whether it takes a capture.
#[derive(Clone, Copy, Debug, PartialEq, Eq)]
pub enum Function {
    /// `file-stats`: the hit count of the file that the argument names.
    FileStats,
    /// `tcp-connections`: a row for each connection.
    TcpConnections,
    /// `net-stats`: the twenty counters.
    NetStats,
    /// `ticks`: the tick count.
    Ticks,
    /// Any other name, or none: an empty text.
    Unknown,
}

/// Returns the function with this name.
#[inline(never)]
pub(crate) fn function_of(name: &[u8]) -> Function
    ensures { result ≡ function_named name.now }
{
    if is_word(name, b"file-stats") {
        Function::FileStats
    } else if is_word(name, b"tcp-connections") {
        Function::TcpConnections
    } else if is_word(name, b"net-stats") {
        Function::NetStats
    } else if is_word(name, b"ticks") {
        Function::Ticks
    } else {
        Function::Unknown
    }
}

/// Returns the greatest length of the function's text, in bytes.
/// [add: counter] The length of the text of all counters: eleven bytes more.
#[inline(always)]
pub fn greatest_len(function: Function) -> usize
    ensures { result ≡ length_at_most function }
{
    match function {
        Function::FileStats | Function::Ticks => 10,
        Function::TcpConnections => 1030,
        Function::NetStats => 220,
        Function::Unknown => 0,
    }
}

impl Calls for Function {
    ghost use Rattle.script_lang.specs.Functions.{uip_calls};

    ghost calling = { uip_calls };

    #[inline(always)]
    fn named(name: &[u8]) -> Function {
        function_of(name)
    }

    #[inline(always)]
    fn takes_capture(self) -> bool {
        match self {
            Function::Unknown => false,
            _ => true,
        }
    }

    #[inline(always)]
    fn greatest_len(self) -> usize {
        greatest_len(self)
    }
}
