//! What holds for every session.

ghost use Rattle.telnet_shell.specs.WorkedSessions.{AreWorkedSessions, KeepsLaws};
ghost use Rattle.telnet_shell.specs.DeskPorts.{IsTwoApplications};
ghost use Rattle.telnet_shell.specs.DeskLines.{DeskSpeaksOnLines};
ghost use Rattle.telnet_shell.specs.Traces.{KeepsSession};
ghost use Rattle.telnet_shell.specs.ConstantValues.{ConstantValues};
ghost use Rattle.telnet_shell.specs.Exactly.{IsExact};
ghost use Rattle.telnet_shell.specs.Sequences.{ReadsSequences};

/// The definitions give the sessions that were worked by hand.
#[tactic(auto, using(crate::proofs::WorkedSessions::worked))]
pub fn worked_sessions()
    ensures { AreWorkedSessions }
{}

/// More bytes and more captures only append to the text, and what the shell requests to send exists.
pub fn shell_laws()
    ensures { KeepsLaws }
{}

/// At port 80 the desk is the web server, call by call, and at port 23 the shell.
#[tactic(auto, using(crate::proofs::TwoApplications::two_applications))]
pub fn desk_is_two_applications()
    ensures { IsTwoApplications }
{}

/// On a line the desk takes back no text, and sends bytes: at port 80 the pages of its files, at port 23 the shell's session.
pub fn desk_speaks_on_lines()
    ensures { DeskSpeaksOnLines }
{}

/// A session only grows, a whole one stays whole, and a connection is closed only at the end of a whole session.
#[tactic(auto, using(crate::proofs::SessionLaws::keeps_session))]
pub fn shell_keeps_its_session()
    ensures { KeepsSession }
{}

/// A shell closes exactly if its session is whole and acknowledged. It takes a capture exactly if a command without one is
/// next. It is given up exactly if a command arrives while 32 are not wholly acknowledged.
#[tactic(auto, using(crate::proofs::ExactLaws::is_exact))]
pub fn shell_is_exact()
    ensures { IsExact }
{}

/// Each sequence of the protocol is read as its table states, whatever follows.
#[tactic(auto, using(crate::proofs::SequenceLaws::reads_sequences))]
pub fn sequences_are_read()
    ensures { ReadsSequences }
{}

/// The constants have the values that the definitions name.
pub fn constant_values()
    ensures { ConstantValues }
{}
