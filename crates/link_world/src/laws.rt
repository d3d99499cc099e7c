//! The guarantee of the link world: whatever a schedule loses, repeats or reorders, a clean client has received a prefix of its
//! page, and all of it if it saw a normal close. Each law is the clause of a function without parameters; THEOREM.md
//! describes the proof.

ghost use Rattle.link_world.specs.Prelude.{CleanParts, HonestLink, BytesAreRead, SentToClients, PrefixAndWhole, SameBytes};
ghost use Rattle.link_world.specs.Prelude.{SameBytesPlainly, AgainExactly, AgainExactlyPlainly, Tick, DamageIsLoss, DamageIsLossThere};
ghost use Rattle.link_world.specs.Prelude.{OneSegment, LinesAreActs, CapturesFit, TextNumbers, TextsAreShort, AcknowledgedLater};
ghost use Rattle.link_world.specs.Prelude.{EpochsAreFew, LosingLink, MarkIsLow, NoneIsEmpty, OneConnection, SidesAsPlanned};

/// A clean client has received a prefix of its page, and the whole page if it accepted the server's FIN in sequence.
pub fn prefix_and_whole()
    ensures { PrefixAndWhole }
{}

/// A retransmission of what is outstanding has the same number, flags and text as before.
pub fn same_bytes()
    ensures { SameBytes }
{}

/// The same without a page, and with no bound on the output, if nothing is damaged.
pub fn same_bytes_plainly()
    ensures { SameBytesPlainly }
{}

/// A datagram is marked as a retransmission exactly if an earlier one of the same connection has its number.
pub fn again_exactly()
    ensures { AgainExactly }
{}

/// The same without a page, and with no bound on the output, if nothing is damaged.
pub fn again_exactly_plainly()
    ensures { AgainExactlyPlainly }
{}

/// An expired timer below its limit sends what is outstanding in that tick.
pub fn tick()
    ensures { Tick }
{}

/// A whole datagram that is delivered with one byte changed changes no client, no connection, no number and no list.
pub fn damage_is_loss()
    ensures { DamageIsLoss }
{}

/// While its connection lives, a clean client expects a number inside what is outstanding there, and it has acknowledged no more.
pub fn one_segment()
    ensures { OneSegment }
{}

/// A list of acts reaches what the lines of a schedule reach.
pub fn lines_are_acts()
    ensures { LinesAreActs }
{}

/// What holds together of a clean client: the slices of its page, its FINs, its epochs and its requests.
pub fn clean_parts()
    ensures { CleanParts }
{}

/// Over a link that loses nothing, a client has its whole page within two rounds for each part of its request, two for each
/// text of its page, and six more.
pub fn honest_link()
    ensures { HonestLink }
{}

/// Its receiver reads the bytes of each datagram as what was sent. They are no more than the largest datagram has.
pub fn bytes_are_read()
    ensures { BytesAreRead }
{}

/// Each segment is of a client or to one: the node sends to clients alone.
pub fn sent_to_clients()
    ensures { SentToClients }
{}

/// In a world that is reached a damaged datagram changes no client, no connection, no number and no list.
pub fn damage_is_loss_there()
    ensures { DamageIsLossThere }
{}

/// While a client's epoch is the same, a connection with it stays alive, and its ISS stays the same.
pub fn one_connection()
    ensures { OneConnection }
{}

/// What a client acknowledges is sent after every world in which it was clean and had not opened.
pub fn acknowledged_later()
    ensures { AcknowledgedLater }
{}

/// A client has no more epochs than there are datagrams.
pub fn epochs_are_few()
    ensures { EpochsAreFew }
{}

/// The mark is at most the number of datagrams.
pub fn mark_is_low()
    ensures { MarkIsLow }
{}

/// Each datagram has at least one byte.
pub fn none_is_empty()
    ensures { NoneIsEmpty }
{}

/// At every node, what a connection's peer has acknowledged is what its application counts, and what was delivered to the
/// application is what was accepted.
pub fn text_numbers()
    ensures { TextNumbers }
{}

/// What an application captures at a node has rows and numbers in the ranges of their types.
pub fn captures_fit()
    ensures { CapturesFit }
{}

/// No connection of a node sends 2^30 bytes.
pub fn texts_are_short()
    ensures { TextsAreShort }
{}

/// The clients of a world are those of its plan, in order, with their setups and requests.
pub fn sides_as_planned()
    ensures { SidesAsPlanned }
{}

/// Over a link that loses up to seven copies in a row of each segment of the node, and four of its SYN-ACK, a client that sends its request
/// in one segment has its whole page.
pub fn losing_link()
    ensures { LosingLink }
{}
