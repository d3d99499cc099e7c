use crate::call_record::CallRecord;
use crate::capture::{Capture, take};
use crate::text::{fill_at, text_len};
use app_events::Now;
use script_lang::Function;

impl CallRecord for Capture {
    ghost use Rattle.std.specs.Prelude.{[]};
    ghost use Rattle.generators.specs.Text.{capture_text};
    ghost use Rattle.generators.specs.ScriptFunctions.{uip_call_text};
    ghost use Rattle.generators.specs.Lemmas.Lengths.{texts_short};
    ghost use Rattle.generators.specs.Lemmas.Bytes.{texts_bytes};

    type Function = Function;

    type Own = ();

    ghost output = { uip_call_text };

    ghost text = { capture_text };

    ghost own_numbers = { λ _. [] };

    fn empty() -> Capture {
        Capture::Empty
    }

    fn take(function: Function, _argument: &[u8], hits: u32, _own: &(), now: &Now) -> Capture {
        take(function, hits, now)
    }

    fn text_len(&self) -> usize {
        text_len(self)
    }

    fn fill_at(&self, at: usize, out: &mut [u8]) {
        fill_at(self, at, out);
    }

    ghost short = { λ function argument hits own now word is_now. texts_short function hits now word is_now };

    ghost bytes = { texts_bytes };
}
