//! What holds of every connection and every trace.

ghost use Rattle.own_app.specs.ConstantValues.{ConstantValues};
ghost use Rattle.own_app.specs.OwnLines.{OwnSpeaksOnLines};
ghost use Rattle.own_app.specs.OwnTraces.{OwnTraceConforms};

/// On a line the application takes back no text, and sends bytes: at each port the messages that the connection captured, in order.
pub fn own_app_speaks_on_lines()
    ensures { OwnSpeaksOnLines }
{}

/// Holds for any events of a line, and any messages that the program writes between them. The trace conforms: each receiver has a prefix of
/// the captured messages, and a FIN follows the last one only.
pub fn own_trace_conforms()
    ensures { OwnTraceConforms }
{}

/// The constants have the values that the definitions name.
pub fn constant_values()
    ensures { ConstantValues }
{}
