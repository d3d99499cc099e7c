//! The words of a device's scripts.

use crate::spelling::Spelling;
use script_lang::{Calls, Function, is_word};

/// What a script of a device can call.
#[derive(Clone, Copy, Debug, PartialEq, Eq)]
pub enum Word {
    /// A function of uIP.
    Uip(Function),
    /// A value of the device, escaped for its context.
    Value(Spelling),
}

impl Calls for Word {
    ghost use Rattle.device_values.specs.Words.{word_calls};

    ghost calling = { word_calls };

    // It is not inlined, since its caller is, wherever a script is read.
    #[inline(never)]
    fn named(name: &[u8]) -> Word {
        if is_word(name, b"value") {
            Word::Value(Spelling::Plain)
        } else if is_word(name, b"value-json") {
            Word::Value(Spelling::Json)
        } else if is_word(name, b"value-html") {
            Word::Value(Spelling::Html)
        } else {
            Word::Uip(Function::named(name))
        }
    }

    fn takes_capture(self) -> bool {
        match self {
            Word::Uip(function) => function.takes_capture(),
            Word::Value(_) => true,
        }
    }

    fn greatest_len(self) -> usize {
        match self {
            Word::Uip(function) => Calls::greatest_len(function),
            Word::Value(Spelling::Plain) => 32,
            Word::Value(Spelling::Json) => 192,
            Word::Value(Spelling::Html) => 192,
        }
    }
}
