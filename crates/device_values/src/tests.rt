use crate::{Spelling, ValueCapture, Values, Word};
use app_events::{Now, RowList};
use arrayvec::ArrayVec;
use generators::CallRecord;
use script_lang::{Calls, Function};

/// A snapshot with an empty history.
/// [add: counter] The length of the array.
fn zero_now() -> Now {
    Now {
        ticks: 0,
        net: [0; 20],
        rows: RowList {
            list: ArrayVec::new(),
        },
    }
}

#[test]
fn words_by_their_names(rt: HostRuntime) {
    assert_eq!(rt; Word::named(b"value"), Word::Value(Spelling::Plain));
    assert_eq!(rt; Word::named(b"value-json"), Word::Value(Spelling::Json));
    assert_eq!(rt; Word::named(b"value-html"), Word::Value(Spelling::Html));
    assert_eq!(rt; Word::named(b"ticks"), Word::Uip(Function::Ticks));
    assert_eq!(rt; Word::named(b"value-xml"), Word::Uip(Function::Unknown));
}

/// The text of a call of value 3, which is `5 > "4"`.
fn output(word: Word, argument: &[u8]) -> ValueCapture {
    let mut values = Values::new();
    let text: [u8; 8] = [7, b'5', b' ', b'>', b' ', b'"', b'4', b'"'];
    values.bytes[99..107].copy_from_slice(&text);
    ValueCapture::take(word, argument, 0, &values, &zero_now())
}

#[test]
fn a_value_is_spelled(rt: HostRuntime) {
    let rows: [(Spelling, &[u8]); 3] = [
        (Spelling::Plain, b"5 > \"4\""),
        (Spelling::Json, b"5 > \\\"4\\\""),
        (Spelling::Html, b"5 &gt; &quot;4&quot;"),
    ];
    for (spelling, text) in rows {
        let record = output(Word::Value(spelling), b"3");
        let mut out = [0; 20];
        let len = record.text_len();
        assert_eq!(rt; len, text.len());
        record.fill_at(0, &mut out[..len]);
        assert_eq!(rt; &out[..len], text);
    }
}

#[test]
fn no_value_of_a_number_with_a_leading_zero(rt: HostRuntime) {
    assert_eq!(rt; output(Word::Value(Spelling::Plain), b"03").text_len(), 0);
    assert_eq!(rt; output(Word::Value(Spelling::Plain), b"16").text_len(), 0);
    assert_eq!(rt; output(Word::Value(Spelling::Plain), b"").text_len(), 0);
}
