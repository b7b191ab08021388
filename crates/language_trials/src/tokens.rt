//! The tokens of expression texts.
use expr_tokens::{Token, read_tokens};
use std::test::Fail;
use trial_rows::all_rows;

/// Texts, and the places and classes of their tokens.
const TEXTS: &str = r#"A= 2 * 3; => 0:name 1:sign 3:int 5:operator 7:int 8:sign
==!=<=>=&&||<> => 0:operator 2:operator 4:operator 6:operator 8:operator 10:operator 12:operator 13:operator
= === => 0:sign 2:operator 4:sign
00 007 => 0:int 1:int 3:int 4:int 5:int
1. 1.50 0.5 => 0:int 1:sign 3:point 8:point
12L 12 L 1.5L => 0:long 4:int 7:name 9:point 12:name
2147483647 2147483648 => 0:int 11:beyond
9223372036854775807L 9223372036854775808L => 0:long 21:beyond
new BigDecimal RoundingMode newer => 0:keyword 4:keyword 15:keyword 28:name
&&&|#@ => 0:operator 2:alien 3:alien 4:alien 5:alien
"1.50" "-3" "x" => 0:string 7:string 12:alien 13:name 14:alien
(){}[]?:.,! => 0:sign 1:sign 2:sign 3:sign 4:sign 5:sign 6:sign 7:sign 8:sign 9:sign 10:sign
abcdefghijklmnopqrstuvwxyzABCDEFG => 0:name 32:name
123456789012345678901234567890 => 0:beyond
10000000000000000000000000000000000000.0 => 0:beyond
1000000000000000000000000000000000000.0 => 0:point
0.000000000000000000000000000001 => 0:point
0.0000000000000000000000000000001 => 0:beyond
"0.0000000000000000000000000000001" => 0:beyond"#;

/// What a token is.
fn class(token: Token) -> &'static str {
    match token {
        Token::Int(_) => "int",
        Token::Long(_) => "long",
        Token::Point(_) => "point",
        Token::Quoted(_) => "string",
        Token::Beyond => "beyond",
        Token::Name(_) => "name",
        Token::Keyword(_) => "keyword",
        Token::Operator(_) => "operator",
        Token::Mark(_) => "sign",
        Token::Alien => "alien",
    }
}

/// Writes the places and the classes of the tokens.
fn tokens(asked: &str, text: &mut String) -> Result<(), Fail> {
    let tokens = read_tokens(*text.allocator(), asked.as_bytes())?;
    for placed in tokens.as_slice() {
        write!(text, "{}:{} ", placed.at, class(placed.token))?;
    }
    Ok(())
}

#[test]
fn texts_have_their_tokens(rt: HostRuntime) -> Result<(), Fail> {
    all_rows(rt.alloc(), TEXTS, tokens)
}
