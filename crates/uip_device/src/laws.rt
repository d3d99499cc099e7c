//! The laws of any sequence of moves: calls, and values that are set between them.

ghost use Rattle.uip_device.specs.Answering.{PagesWithoutValues, ValuePagesAnswer, WebCallsArrive};
ghost use Rattle.std.specs.Prelude.{◌≡◌, ◌++◌, []};
ghost use Rattle.uip_node.specs.Prelude.{initial_node};
ghost use Rattle.serve_loop.specs.Prelude.{IsNode};
ghost use Rattle.uip_device.specs.Prelude.{EveryCallConforms, EveryLineIsServed, FromFresh, datagrams_handed, left_text_of};
ghost use Rattle.uip_device.specs.Prelude.{line_handed, moves_of, ConstantValues, datagrams_sent};
ghost use Rattle.uip_device.specs.Prelude.{guard_reached, line_sent, node_reached};

use app_events::App;

/// Holds for any sequence of calls of a fresh device, with any values set between. The serial output, with what is pending, is the text of
/// what the initial node and its guard send over the input of the calls. Each call over a datagram link writes the datagram that is
/// sent at its event, or none. The device represents the node after these moves, and its application keeps its configuration, as a site.
/// Its guard has the rules that it had, and has counted what it dropped and gave up.
pub fn calls_are_reported<A: App>()
    ensures line { FromFresh A.App (λ m gives numbers own rules all old new. line_handed all ++ left_text_of new
        ≡ line_sent m A.served gives rules own [] (moves_of all) (initial_node own numbers)) }
    ensures datagrams { FromFresh A.App (λ m gives numbers own rules all old new. datagrams_handed all
        ≡ datagrams_sent m A.served gives rules own [] (moves_of all) (initial_node own numbers)) }
    ensures represented { FromFresh A.App (λ m gives numbers own rules all old new.
        IsNode A.App m own new.node (node_reached m A.served gives rules [] (moves_of all) (initial_node own numbers))) }
    ensures counts { FromFresh A.App (λ m gives numbers own rules all old new.
        new.guard ≡ guard_reached m A.served gives rules (moves_of all) (initial_node own numbers)) }
    ensures kept { FromFresh A.App (λ m gives numbers own rules all old new. A.config new.node.shared ≡ A.config old.node.shared) }
{}

/// Holds for any bytes, any sequence of calls and any values set between, of a fresh device whose application's text is a page of bytes.
/// Each call writes what is sent in the trace entries of the events that the guarded node takes, and the trace satisfies the guarantee.
pub fn calls_keep_the_promise<A: App>()
    ensures { EveryCallConforms A.App }
{}

/// Holds if the calls bring the items of a line at a pace, in order, with no value set between. They write what the guarded node sends for
/// these items, however the bytes are cut among the calls and the output into pieces. Where the guard neither shifts, drops nor gives up
/// anything, that is what the server of a serial line writes.
pub fn line_is_served<A: App>()
    ensures { EveryLineIsServed A.App }
{}

/// The pages of a device answer a decided request in a number of segments that its pieces give, if text follows each value of the page.
pub fn value_pages_answer()
    ensures answers { ValuePagesAnswer }
    ensures none { PagesWithoutValues }
{}

/// In a trace of a device, of calls or of frames, the page of a peer arrives over a lossy link, if text follows each value of the page.
pub fn web_calls_arrive()
    ensures { WebCallsArrive }
{}

/// The number that contracts name by the code's constant.
pub fn constant_values()
    ensures { ConstantValues }
{}
