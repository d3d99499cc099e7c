//! The laws of a line.

ghost use Rattle.serve_loop.specs.Prelude.{BringsBytes, slip_medium};
ghost use Rattle.line_laws.specs.Prelude.{EveryLineArrives, EveryLineConforms, PrefixConforms};

use line_medium::Medium;

/// Over every medium that decodes bytes from bytes, the output for the items of a line satisfies the guarantee, whatever the items are.
pub fn every_line<M: Medium>()
    ensures { (k : M.Config) → BringsBytes (M.spec k) → EveryLineConforms (M.spec k) }
{}

/// The same for a serial line.
pub fn every_serial_line()
    ensures { EveryLineConforms slip_medium }
{}

/// Over every such medium the pages of cooperating peers arrive, though it loses, repeats and reorders datagrams, if the text of the
/// application is a page of bytes.
pub fn every_line_arrives<M: Medium>()
    ensures { (k : M.Config) → BringsBytes (M.spec k) → EveryLineArrives (M.spec k) }
{}

/// If a line satisfies the guarantee, so does each prefix of it.
pub fn every_prefix<M: Medium>()
    ensures { (k : M.Config) → PrefixConforms (M.spec k) }
{}
