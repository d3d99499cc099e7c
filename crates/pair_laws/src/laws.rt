//! What holds of the trace of a node with a pair.

ghost use Rattle.pair_laws.specs.PairLines.{PairSpeaksOnLines, PairTraceConforms};

/// If each application satisfies what the laws of a node's trace require, the pair does. At each port its output is that of the application
/// there.
pub fn pair_speaks_on_lines()
    ensures { PairSpeaksOnLines }
{}

/// Holds for any events of a line, and any changes of the numbers of each application between them. The trace conforms: each receiver has
/// what the application at its port sends.
pub fn pair_trace_conforms()
    ensures { PairTraceConforms }
{}
