// Tests of the lexer: sources with their tokens, their faults, and what their texts mean.

use crate::answers::Question;
use crate::everyday::{NETWORK, SITE, STORAGE};
use crate::rows::{compare, compare_one};
use std::alloc::{AllocError, Global};
use std::test::Fail;

// Adds the source that a table has: `front`, and then the part of each line before its `⇒`, each with `newline` after
// it.
fn add_source(
    source: &mut String,
    front: &str,
    newline: &str,
    table: &str,
) -> Result<(), AllocError> {
    source.push_str(front)?;
    for line in table.lines() {
        if let Some((text, _)) = line.split_once('⇒') {
            source.push_str(text)?;
            source.push_str(newline)?;
        }
    }
    Ok(())
}

// Adds the shapes that a table has: the part of each line after the `⇒`. Returns how many lines have one.
fn add_shapes(shapes: &mut String, table: &str) -> Result<u32, AllocError> {
    let mut lines = 0u32;
    for line in table.lines() {
        if let Some((_, shape)) = line.split_once('⇒') {
            shapes.push_str(shape)?;
            lines = lines.saturating_add(1);
        }
    }
    Ok(lines)
}

// Compares the shapes of a file with those of its table, which has fifty lines.
fn compare_lines(alloc: Global, front: &str, newline: &str, table: &str) -> Result<(), Fail> {
    let (mut source, mut wanted) = (String::new(alloc), String::new(alloc));
    add_source(&mut source, front, newline, table)?;
    if add_shapes(&mut wanted, table)? != 50 {
        return Err(Fail::from("not fifty lines"));
    }
    compare_one(alloc, Question::Shapes, source.as_str(), wanted.as_str())
}

#[test]
fn a_storage_account_has_its_tokens(rt: HostRuntime) -> Result<(), Fail> {
    compare_lines(rt.alloc(), "", "\n", STORAGE)
}

#[test]
fn a_network_has_its_tokens(rt: HostRuntime) -> Result<(), Fail> {
    compare_lines(rt.alloc(), "", "\n", NETWORK)
}

#[test]
fn a_site_after_a_byte_order_mark_has_its_tokens(rt: HostRuntime) -> Result<(), Fail> {
    compare_lines(rt.alloc(), "\u{feff}", "\r\n", SITE)
}

// Sources with faults, and their faults.
const FAULTS: &str = "\
§var a = 'x => open text at 8
§'a${'b => open text at 0
§'a${x => open text at 0
§x 'a${x}b
' => open text at 2
§'a${'b
 => open text at 4
§'a${
'b\r
 => open text at 5
§'a${x}b${ => open text at 0
§'a${/* x => open text at 0
§{ /* x => open comment at 2
§a /*/ => open comment at 2
§'a\rb' => open text at 0
§'''a => open text at 0
§x '''a'' => open text at 2
§'''' => open text at 0
§'${'''a => open text at 0
§'x${{} => open text at 0
§'x${{}
'y => open text at 0
§'a\\q => bad escape at 2
§'a\\
' => bad escape at 2
§'\\ => bad escape at 1
§'a${x}\\u{110000}' => bad escape at 6
§'\\u{d800}' => bad escape at 1
§'\\u{}' => bad escape at 1
§'\\u{1234567}' => bad escape at 1
§'a\\u{41 => bad escape at 2
§a = 9223372036854775808 => bad number at 4
§'${99999999999999999999 => bad number at 3
§a\rb => bad character at 1
§ab \u{e9} => bad character at 3
§a\u{feff} => bad character at 1
§\"a\" => bad character at 0
§a & b => bad character at 2
§| => bad character at 0
§~ => bad character at 0
§${a} => bad character at 0
§x #disable-next-line y => bad character at 2
§#disable-next-lines => bad character at 0
§#disable-next-line-x => bad character at 0
§#Disable-next-line x => bad character at 0
";

#[test]
fn faults_have_their_places(rt: HostRuntime) -> Result<(), Fail> {
    compare(rt.alloc(), Question::Shapes, FAULTS, 39)
}

// Sources with their shapes, and the offset and the text of their last token.
const LAST: &str = "\
§'1${'2${'3${'4${'5${x}e'}d'}c'}b'}a' => lllllnrrrrr 33 }a'
§'a${b}c${d}e' => lnmnr 10 }e'
§a\r

 // c
/* d */\r
 => n¶ 1 \r

§a // c\r

 => n¶ 6 \r

§// b\rc
d => ¶n 7 d
§\u{feff}x => n 3 x
§007abc => 0n 3 abc
§''''''' => v 0 '''''''
§'''a''''''' => vt 9 ''
§a /*\u{20}
 */ #disable-next-line
b => n¶n 29 b
§  #disable-next-line 'x
b => ¶n 24 b
§'${
{}}' => l¶{}r 6 }'
";

#[test]
fn tokens_are_slices_of_their_source(rt: HostRuntime) -> Result<(), Fail> {
    compare(rt.alloc(), Question::Last, LAST, 12)
}

// Sources, and what their first and their last token mean.
const VALUES: &str = "\
§'a\\'b\\\\c\\$d\\n\\r\\t\\u{1F600}$'x => a'b\\c$d
\r\t\u{1f600}$|x
§'a\\t${x}c\\\\' => a\t|c\\
§'${x}-${y}''' => |
§''''x''' => 'x|'x
§'''\r
a\r
''' => a\r
|a\r

§'''

a\\t''''' =>\u{20}
a\\t''|
a\\t''
§'''''' => |
§'\\u{41}\u{e9}\\u{0000fc}' => A\u{e9}\u{fc}|A\u{e9}\u{fc}
§'a$$${x}$b$' => a$$|$b$
§abc 007 => abc|007
";

#[test]
fn texts_mean_their_characters(rt: HostRuntime) -> Result<(), Fail> {
    compare(rt.alloc(), Question::Values, VALUES, 10)
}
