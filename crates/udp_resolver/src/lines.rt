//! The lines of the report.

ghost use Rattle.std.specs.Prelude.{◌≡◌, ◌≤◌, ◌+◌, ◌++◌, length};
ghost use Rattle.udp_resolver.specs.declared.lines.TheConstants.{LONGEST_FATE, LONGEST_LINE};
ghost use Rattle.uip_edge.specs.Prelude.{sink_view};
ghost use Rattle.udp_resolver.specs.Fates.{fate_by};
ghost use Rattle.udp_resolver.specs.Lines.{fate_text, line_of};
ghost use Rattle.udp_resolver.specs.Representing.{WritesSome};
ghost use Rattle.udp_resolver.specs.Steps.{lines_by};

use crate::fate::Fate;
use dns_message::{Answer, LONGEST_NAME, Name};
use text_buffer::Text;
use uip_edge::{Failed, Sink};

/// The most bytes of a fate: those of an address.
const LONGEST_FATE: usize = 15;

/// The most bytes of a line: the name, a space, its fate, and a line feed.
const LONGEST_LINE: usize = LONGEST_NAME + 1 + LONGEST_FATE + 1;

/// A line of the report.
type Line = Text<LONGEST_LINE>;

/// Appends a fate to the line.
fn put_fate(line: &mut Line, fate: Fate)
    requires { length line.old + LONGEST_FATE ≤ LONGEST_LINE }
    ensures text { line.new ≡ line.old ++ fate_text fate }
    ensures len { length line.new ≤ length line.old + LONGEST_FATE }
{
    match fate {
        Fate::Answered(Answer::Address(address)) => line.put_quad(address),
        Fate::Answered(Answer::NoAddress) => line.put(b"none"),
        Fate::Answered(Answer::Code(code)) => {
            line.put(b"code ");
            line.put_byte(code);
        }
        Fate::Timeout => line.put(b"timeout"),
        Fate::Open => line.put(b"open"),
    }
}

/// Returns the fate of a name with this answer.
fn fate_by(answer: Option<Answer>, is_over: bool) -> Fate
    ensures { result ≡ fate_by answer is_over }
{
    match answer {
        Some(answer) => Fate::Answered(answer),
        None if is_over => Fate::Timeout,
        None => Fate::Open,
    }
}

/// Returns the line of a name.
fn line_of(name: &Name, fate: Fate) -> Line
    ensures { result ≡ line_of name.now fate }
{
    let mut line = Line::new();
    line.put(&name.text);
    line.put(b" ");
    put_fate(&mut line, fate);
    line.put(b"\n");
    line
}

/// Writes the line of each name, in order.
pub(crate) fn report_all<T: Sink>(
    names: &[Name],
    answers: &[Option<Answer>],
    is_over: bool,
    tell: &mut T,
) -> Result<(), Failed>
    requires { length answers.now ≡ length names.now }
    ensures { WritesSome (sink_view T.Sink tell.old) (sink_view T.Sink tell.new) result (lines_by names.now answers.now is_over) }
{
    for at in 0..names.len() {
        tell.write_whole(line_of(&names[at], fate_by(answers[at], is_over)).bytes())?;
    }
    Ok(())
}
