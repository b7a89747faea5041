// Functions that encode texts, and that make names of them.

use crate::table::check;
use std::test::Fail;

const ENCODED: &str = r#"base64 ["one, two, three"] -> "b25lLCB0d28sIHRocmVl"
base64 ["hello"] -> "aGVsbG8="
base64 ["f"] -> "Zg=="
base64 [""] -> ""
base64 ["é"] -> "w6k="
base64 ["😀"] -> "8J+YgA=="
base64 ["ÿþ?>~"] -> "w7/Dvj8+fg=="
base64 [1] -> none
base64 [null] -> none"#;

#[test]
fn texts_are_encoded(rt: HostRuntime) -> Result<(), Fail> {
    check(rt.alloc(), ENCODED)
}

const DECODED: &str = r#"base64ToString ["b25lLCB0d28sIHRocmVl"] -> "one, two, three"
base64ToString ["aGVsbG8="] -> "hello"
base64ToString [""] -> ""
base64ToString ["w7/Dvj8+fg=="] -> "ÿþ?>~"
base64ToString ["8J+YgA=="] -> "😀"
base64ToString [true] -> none"#;

#[test]
fn encodings_are_decoded(rt: HostRuntime) -> Result<(), Fail> {
    check(rt.alloc(), DECODED)
}

// Padding that is too long, too short or not at the end; bits after the last byte that are not zero;
// characters that are no symbols; bytes that are no UTF-8: FF, half a character, a surrogate.
const NO_ENCODINGS: &str = r#"base64ToString ["b25l="] -> none
base64ToString ["b25"] -> none
base64ToString ["Zg="] -> none
base64ToString ["Zg==Zg=="] -> none
base64ToString ["===="] -> none
base64ToString ["Zh=="] -> none
base64ToString ["Z g=="] -> none
base64ToString ["Zg==\n"] -> none
base64ToString ["w7_Dvj8-fg=="] -> none
base64ToString ["ég=="] -> none
base64ToString ["/w=="] -> none
base64ToString ["ww=="] -> none
base64ToString ["7aCA"] -> none"#;

#[test]
fn what_is_no_encoding_of_a_text_has_no_value(rt: HostRuntime) -> Result<(), Fail> {
    check(rt.alloc(), NO_ENCODINGS)
}

const UNIQUE: &str = r#"uniqueString ["abc"] -> "xj4bnp4pahh6u"
uniqueString [""] -> "4oymiquy7qobi"
uniqueString ["a","b"] -> "lgzhdlq3xsy5g"
uniqueString ["b","a"] -> "hf6fofv72g3nm"
uniqueString ["ab"] -> "7ohcb7bojq7si"
uniqueString ["a",""] -> "77u2v2vculkqi"
uniqueString ["a","","b"] -> "fwg3zxpuayl2m"
uniqueString ["é😀","x"] -> "5dlhgnu4qjvbc"
uniqueString [1] -> none
uniqueString ["a",null] -> none
uniqueString [["a"],"b"] -> none"#;

#[test]
fn unique_strings_follow_from_texts(rt: HostRuntime) -> Result<(), Fail> {
    check(rt.alloc(), UNIQUE)
}

const UUIDS: &str = r#"guid ["python.org"] -> "886313e1-3b8a-5372-9b90-0c9aee199e5d"
guid ["www.example.com"] -> "2ed6657d-e927-568b-95e1-2665a8aea6a2"
guid [""] -> "4ebd0208-8328-5d69-8c44-ec50939c0967"
guid ["a","b"] -> "0a63f66b-e02f-5d2d-9fd4-aad819cf5352"
guid ["ab"] -> "710a586f-e1aa-54ec-93a9-85a85aa0b725"
guid ["é😀","x"] -> "56a97e75-5ce0-5910-9ba2-7b1c54644289"
guid [{}] -> none
guid ["a",1] -> none"#;

#[test]
fn guids_are_uuids_of_texts(rt: HostRuntime) -> Result<(), Fail> {
    check(rt.alloc(), UUIDS)
}
