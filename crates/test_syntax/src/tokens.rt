//! Bytes and their tokens.
ghost use Rattle.std.specs.Prelude.{◌≤◌};

use crate::lines::{Lines, agree};
use js_lexer::{Kind, Token, lex, line_at};
use percent_encoding::percent_decode;
use std::alloc::{AllocError, Global};
use std::process::Abort;
use std::test::Fail;

fn shown_token(alloc: Global, token: &Token) -> Result<String, AllocError> {
    let text = match &token.kind {
        Kind::Name(text) => format!(in alloc; "name {}", text.as_str())?,
        Kind::Keyword(text) => format!(in alloc; "word {}", text.as_str())?,
        Kind::Number(number) => format!(in alloc; "number {}", number.get())?,
        Kind::Text(text) => format!(in alloc; "text {:?}", text.as_str())?,
        Kind::Mark(text) => format!(in alloc; "mark {}", text.as_str())?,
    };
    let start = if token.new_line { "new " } else { "" };
    format!(in alloc;
        "{}{} {}-{} line {}",
        start,
        text.as_str(),
        token.from,
        token.to,
        token.line
    )
}

/// The tokens with ` | ` between, or that they are refused.
fn shown(alloc: Global, bytes: &[u8]) -> Result<String, AllocError> {
    if bytes.len() > 1_048_576 {
        return format!(in alloc; "too long");
    }
    let tokens = match lex(alloc, bytes) {
        Ok(tokens) => tokens,
        Err(_) => return format!(in alloc; "refused"),
    };
    let mut all = String::new(alloc);
    for (place, token) in tokens.iter().enumerate() {
        if place > 0 {
            all.push_str(" | ")?;
        }
        let line = shown_token(alloc, token)?;
        all.push_str(line.as_str())?;
    }
    Ok(all)
}

/// Whether the bytes of the cell have these tokens.
pub fn agrees(alloc: Global, cell: &str, want: &str) -> Result<bool, Fail> {
    let mut bytes = Vec::new(alloc);
    percent_decode(cell.as_bytes()).append_to(&mut bytes)?;
    Ok(shown(alloc, bytes.as_slice())?.as_str() == want)
}

/// Numbers in four forms.
const NUMBERS: &str = r#"
9007199254740991 --> new number 9007199254740991 0-16 line 1
0 --> new number 0 0-1 line 1
120; --> new number 120 0-3 line 1 | mark ; 3-4 line 1
0x1eE --> new number 494 0-5 line 1
0XaF --> new number 175 0-4 line 1
0o17 --> new number 15 0-4 line 1
0O7 --> new number 7 0-3 line 1
0b101 --> new number 5 0-5 line 1
0B1 --> new number 1 0-3 line 1
0x1FFFFFFFFFFFFF --> new number 9007199254740991 0-16 line 1
0o377777777777777777 --> new number 9007199254740991 0-20 line 1
0b11111111111111111111111111111111111111111111111111111 --> new number 9007199254740991 0-55 line 1
"#;

/// Literals.
const LITERALS: &str = r#"
'' --> new text "" 0-2 line 1
"a'b" --> new text "a'b" 0-5 line 1
'\n\t\r\b\f\v\0' --> new text "\n\t\r\u{8}\u{c}\u{b}\0" 0-16 line 1
'\x41\u0042\u{43}\u{000044}' --> new text "ABCD" 0-28 line 1
'\u{1F600}\uD83D\ude00' --> new text "😀😀" 0-23 line 1
'\'\"\\\a\$' --> new text "'\"\\a$" 0-12 line 1
'%c3%a9\%c3%a9\%f0%9f%98%80' --> new text "éé😀" 0-12 line 1
'a%e2%80%a8b' c --> new text "a\u{2028}b" 0-7 line 1 | name c 8-9 line 2
"#;

/// The longest marks.
const MARKS: &str = r#"
a?.5:1 --> new name a 0-1 line 1 | mark ?. 1-3 line 1 | number 5 3-4 line 1 | mark : 4-5 line 1 | number 1 5-6 line 1
...5 --> new mark ... 0-3 line 1 | number 5 3-4 line 1
.. --> new mark . 0-1 line 1 | mark . 1-2 line 1
>>>=>>>== --> new mark >>>= 0-4 line 1 | mark >>>= 4-8 line 1 | mark = 8-9 line 1
=>===!==!= --> new mark => 0-2 line 1 | mark === 2-5 line 1 | mark !== 5-8 line 1 | mark != 8-10 line 1
a+++b --> new name a 0-1 line 1 | mark ++ 1-3 line 1 | mark + 3-4 line 1 | name b 4-5 line 1
**=??=&&=||= --> new mark **= 0-3 line 1 | mark ??= 3-6 line 1 | mark &&= 6-9 line 1 | mark ||= 9-12 line 1
{}()[];,:~ --> new mark { 0-1 line 1 | mark } 1-2 line 1 | mark ( 2-3 line 1 | mark ) 3-4 line 1 | mark [ 4-5 line 1
    | mark ] 5-6 line 1 | mark ; 6-7 line 1 | mark , 7-8 line 1 | mark : 8-9 line 1 | mark ~ 9-10 line 1
"#;

/// Names and words.
const WORDS: &str = r#"
-->
a $_0 lets typeof of --> new name a 0-1 line 1 | name $_0 2-5 line 1 | name lets 6-10 line 1 | word typeof 11-17 line 1
    | name of 18-20 line 1
const let var function return if else
    --> new word const 0-5 line 1 | word let 6-9 line 1 | word var 10-13 line 1 | word function 14-22 line 1
    | word return 23-29 line 1 | word if 30-32 line 1 | word else 33-37 line 1
while for break continue true false null
    --> new word while 0-5 line 1 | word for 6-9 line 1 | word break 10-15 line 1 | word continue 16-24 line 1
    | word true 25-29 line 1 | word false 30-35 line 1 | word null 36-40 line 1
"#;

/// Gaps and lines.
const GAPS: &str = r#"
a%0ab%0dc%0d%0ad%e2%80%a8e%e2%80%a9f
    --> new name a 0-1 line 1 | new name b 2-3 line 2 | new name c 4-5 line 3 | new name d 7-8 line 4
    | new name e 11-12 line 5 | new name f 15-16 line 6
%ef%bb%bfa%c2%a0b%09c%0bd%0ce f
    --> new name a 3-4 line 1 | name b 6-7 line 1 | name c 8-9 line 1 | name d 10-11 line 1 | name e 12-13 line 1
    | name f 14-15 line 1
a//b%0d%0ac// --> new name a 0-1 line 1 | new name c 6-7 line 2
a/*b*/c --> new name a 0-1 line 1 | name c 6-7 line 1
a/*%0d%0a*/b --> new name a 0-1 line 1 | new name b 7-8 line 2
a/*%e2%80%a9**/b --> new name a 0-1 line 1 | new name b 9-10 line 2
/**/ -->
//%0a// -->
%0a%0a a --> new name a 3-4 line 3
"#;

#[test]
fn bytes_have_their_tokens(rt: HostRuntime) -> Result<(), Fail> {
    for table in [NUMBERS, LITERALS, MARKS, WORDS, GAPS] {
        agree(&rt, rt.alloc(), Lines::Tokens, table)?;
    }
    Ok(())
}

#[test]
fn the_longest_text(rt: HostRuntime) -> Result<(), Fail> {
    let blank = vec![in rt.alloc(); b' '; 1_048_576]?;
    assert!(rt; shown(rt.alloc(), &blank)?.is_empty());
    Ok(())
}

/// The line of a place in a text of four lines.
fn line_is(rt: &impl Abort, place: u32, line: u32)
    requires { place ≤ 9 }
{
    assert!(rt;
        line_at(b"a\r\nb\n\xe2\x80\xa8c", place) == line,
        "at {place}"
    );
}

#[test]
fn lines_of_places(rt: HostRuntime) {
    line_is(&rt, 0, 1);
    line_is(&rt, 1, 1);
    line_is(&rt, 2, 1);
    line_is(&rt, 3, 2);
    line_is(&rt, 4, 2);
    line_is(&rt, 5, 3);
    line_is(&rt, 8, 4);
    line_is(&rt, 9, 4);
}
