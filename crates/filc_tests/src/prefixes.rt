//! Each prefix of a program that uses every statement: which refusal, at which line, at each token.
//!
//! What stands before the end of a file begins one. So a prefix is refused only at its end, as `syntax` at its last
//! line, or it is a file itself: the last one a program, and all others without `main`. A grammar that lacked a
//! production would refuse later prefixes at an earlier line.

use crate::checks::{NO_MAIN, answer};
use std::alloc::Global;
use std::test::Fail;

/// The lines of the program, each with a letter for each of its tokens: what is answered for the file
/// that ends with it. `t` says that the tokens so far spell a tree, `s` that they don't, so that the
/// end of the file is refused, at this line.
const LINES: [(&str, &str); 31] = [
    ("typedef unsigned char Byte ;", "sssst"),
    ("enum Colour { RED , GREEN = 5 , BLUE } ;", "ssssssssssst"),
    (
        "struct Node { Byte value ; struct Node * next ; } ;",
        "sssssssssssst",
    ),
    (
        "union Either { int whole ; char * text ; } ;",
        "ssssssssssst",
    ),
    (
        "_Static_assert ( sizeof ( Byte ) == 1 , \"a byte\" ) ;",
        "ssssssssssst",
    ),
    ("int putchar ( int c ) ;", "sssssst"),
    (
        "static const int table [ 2 ] [ 2 ] = { { 1 , 2 } , { 3 , 4 , } , } ;",
        "sssssssssssssssssssssssssst",
    ),
    (
        "struct Node first = { 1 , 0 } , * last = & first ;",
        "ssssssssssssssst",
    ),
    (
        "int ( * handlers [ 2 ] ) ( int , char ) ;",
        "ssssssssssssst",
    ),
    ("int length ( const struct Node * at ) {", "ssssssssss"),
    ("int count = 0 ;", "sssss"),
    (
        "while ( at ) { count ++ ; at = at -> next ; }",
        "sssssssssssssss",
    ),
    ("do count += 1 ; while ( count < 0 ) ;", "ssssssssssss"),
    (
        "for ( int i = 0 , j ; i < 3 ; i ++ ) continue ;",
        "ssssssssssssssssss",
    ),
    ("for ( ; ; ) break ;", "sssssss"),
    (
        "if ( count > 2 ) if ( count ) ; else return - 1 ;",
        "ssssssssssssssss",
    ),
    ("switch ( count & 3 ) {", "sssssss"),
    (
        "case 0 : case RED + 1 : putchar ( 'a' ) ; break ;",
        "sssssssssssssss",
    ),
    (
        "default : { Byte Byte = 2 ; count = Byte * 2 ; }",
        "sssssssssssssss",
    ),
    ("}", "s"),
    (
        "return count ? ( int ) count : ( count , 0 ) ;",
        "ssssssssssssss",
    ),
    ("}", "t"),
    ("int main ( void ) {", "ssssss"),
    (
        "int x = 3 , * p = & x , a [ 3 ] = { 1 , 2 , 3 } ;",
        "ssssssssssssssssssssssss",
    ),
    ("_Atomic ( int ) n ;", "ssssss"),
    ("x = a [ 1 ] = * p << 2 | ~ x ^ ! x ;", "ssssssssssssssssss"),
    (
        "x -= ( sizeof x , sizeof ( int * [ 2 ] ) ) ;",
        "ssssssssssssssss",
    ),
    ("( void ) length ( last ) ;", "ssssssss"),
    ("{ ; }", "sss"),
    (
        "return ( first . value != 1 ) || x >= 2 && x % 2 == 1 ;",
        "sssssssssssssssssss",
    ),
    ("}", "t"),
];

/// Where the tokens of a line end: before each blank outside of a text, and at the end of the line.
fn token_ends(alloc: Global, line: &str) -> Result<Vec<usize>, Fail> {
    let mut ends = Vec::new(alloc);
    let mut in_text = false;
    for (place, byte) in line.as_bytes().iter().enumerate() {
        if *byte == b'"' {
            in_text = !in_text;
        }
        if *byte == b' ' && !in_text {
            ends.push(place)?;
        }
    }
    ends.push(line.len())?;
    Ok(ends)
}

#[test]
fn each_prefix_is_refused_at_its_end(rt: HostRuntime) -> Result<(), Fail> {
    let alloc = rt.alloc();
    let mut before = String::new(alloc);
    for (index, (line, letters)) in LINES.iter().enumerate() {
        let number = index.saturating_add(1);
        let ends = token_ends(alloc, line)?;
        assert_eq!(rt; ends.len(), letters.len(), "the tokens of line {number}");
        let at_end = format!(in alloc; "syntax at line {number}")?;
        for (end, letter) in ends.iter().zip(letters.as_bytes()) {
            let front = line.get(..*end).unwrap_or("");
            let file = format!(in alloc; "{before}{front}")?;
            let found = answer(&rt, alloc, file.as_bytes())?;
            let wanted = if *letter != b't' {
                at_end.as_str()
            } else if number == LINES.len() {
                "accepted"
            } else {
                NO_MAIN
            };
            assert_eq!(rt; found.as_str(), wanted, "line {number}, byte {end}");
        }
        before.push_str(line)?;
        before.push_str("\n")?;
    }
    Ok(())
}
