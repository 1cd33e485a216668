//! The printed text of programs: operands stand in parentheses, bodies in braces.

use crate::cases::expect;
use crate::stand::STAND;
use scad_ast::print;
use scad_fault::Text;
use scad_lex::lex;
use scad_parse::parse;
use std::alloc::{AllocError, Global};

/// A source of a program, and behind `~` the printed program without its line feeds.
const PRINTED: &str = "x = a || b || c; ~ x = ( a || b ) || c ;
x = a && b && c; ~ x = ( a && b ) && c ;
x = a == b != c; ~ x = ( a == b ) != c ;
x = a < b <= c > d >= e; ~ x = ( ( ( a < b ) <= c ) > d ) >= e ;
x = a + b - c; ~ x = ( a + b ) - c ;
x = a - b - c; ~ x = ( a - b ) - c ;
x = a * b / c % d; ~ x = ( ( a * b ) / c ) % d ;
x = a || b && c == d < e + f * -g.h[i]; ~ x = a || ( b && ( c == ( d < ( e + ( f * ( - g . h [ i ] ) ) ) ) ) ) ;
x = a * b + c < d == e && f || g; ~ x = ( ( ( ( ( a * b ) + c ) < d ) == e ) && f ) || g ;
x = !-+a; ~ x = ! ( - ( + a ) ) ;
x = -a * b; ~ x = ( - a ) * b ;
x = a.x[1].y; ~ x = a . x [ 1 ] . y ;
x = (a + b)[0].c; ~ x = ( a + b ) [ 0 ] . c ;
x = a - (b - c); ~ x = a - ( b - c ) ;
x = a ? b : c ? d : e; ~ x = a ? b : c ? d : e ;
x = a ? b ? c : d : e; ~ x = a ? b ? c : d : e ;
x = (a ? b : c) ? d : e; ~ x = ( a ? b : c ) ? d : e ;
x = [let(a=1) a]; ~ x = [ let ( a = 1 ) a ] ;
x = [let(a=1) for(i=[1]) i]; ~ x = [ let ( a = 1 ) for ( i = [ 1 ] ) i ] ;
x = [let(a=1) let(b=2) if(a) b else a]; ~ x = [ let ( a = 1 ) let ( b = 2 ) if ( a ) b else a ] ;
x = [for(i=0;i<3;i=i+1) i]; ~ x = [ for ( i = 0 ; i < 3 ; i = i + 1 ) i ] ;
x = [each [1,2], 3]; ~ x = [ each [ 1 , 2 ] , 3 ] ;
x = [if(a) if(b) 1 else 2]; ~ x = [ if ( a ) if ( b ) 1 else 2 ] ;
x = [for(i=[0:9], j=a,) each i]; ~ x = [ for ( i = [ 0 : 9 ] , j = a ) each i ] ;
x = [let(a=1) a : 3]; ~ x = [ let ( a = 1 ) a : 3 ] ;
x = [0 : 2]; y = [0 : 1 : 2]; ~ x = [ 0 : 2 ] ;y = [ 0 : 1 : 2 ] ;
x = f(a, b = 1,); y = [1, 2,]; z = []; ~ x = f ( a , b = 1 ) ;y = [ 1 , 2 ] ;z = [ ] ;
x = let(a=1) assert(a) echo(a, b) a + 1; ~ x = let ( a = 1 ) assert ( a ) echo ( a , b ) a + 1 ;
x = let(a=1) a ? b : c; ~ x = let ( a = 1 ) a ? b : c ;
x = \"a\\\"b\\\\c\"; y = [true, false, undef]; ~ x = \"a\\\"b\\\\c\" ;y = [ true , false , undef ] ;
x = 1.50; y = .5e1; z = 1e-7; ~ x = 1.5 ;y = 5 ;z = 0 ;
if(a) if(b) c(); else d(); ~ if ( a ) {if ( b ) {c ( ) ;}else {d ( ) ;}}
if(a) { if(b) c(); } else d(); ~ if ( a ) {if ( b ) {c ( ) ;}}else {d ( ) ;}
if(a) ; else if(b) c(); ~ if ( a ) ;else {if ( b ) {c ( ) ;}}
{ a = 1; { b(); } ; } ~ a = 1 ;b ( ) ;
module m(a, b = 2,) { cube(a); module n() ; } ~ module m ( a , b = 2 ) {cube ( a ) ;module n ( ) ;}
module m() cube(1); ~ module m ( ) {cube ( 1 ) ;}
module m() { function f(a,) = a; } ~ module m ( ) {function f ( a ) = a ;}
module m() {} ~ module m ( ) ;
*a(); %b(); #c(); %#*d(); #%e(); ~ % b ( ) ;# c ( ) ;% # e ( ) ;
union() { ; { a(); } b = 1; } ~ union ( ) {a ( ) ;b = 1 ;}
union() *a(); ~ union ( ) ;
for(i=[0:2]) let(j=i) echo(j) assert(true) cube(j); ~ for ( i = [ 0 : 2 ] ) {let ( j = i ) {echo ( j ) {assert ( true ) {cube ( j ) ;}}}}";

const SMALL: &str = "f=2; function f(x)=x+1; module f(){cube(f(f));} f();";

const PRINTED_SMALL: &str = "f = 2 ;
function f ( x ) = x + 1 ;
module f ( ) {
cube ( f ( f ) ) ;
}
f ( ) ;
";

const PRINTED_STAND: &str = "$fn = 48 ;
w = 70 ;
d = 80 ;
t = 6 ;
function slot ( i ) = ( ( ( - w ) / 2 ) + 10 ) + ( i * 12.5 ) ;
module plate ( x , y , z ) {
translate ( [ ( - x ) / 2 , 0 , 0 ] ) {
cube ( [ x , y , z ] ) ;
}
}
module post ( h ) {
cylinder ( h = h , r = t / 2 ) ;
}
module base ( ) {
difference ( ) {
plate ( w , d , t ) ;
for ( i = [ 0 : 4 ] ) {
translate ( [ slot ( i ) , 20 , - 1 ] ) {
cylinder ( h = t + 2 , r = 4 ) ;
}
}
}
}
module lip ( ) {
translate ( [ ( - w ) / 2 , 0 , 0 ] ) {
rotate ( [ 90 , 0 , 90 ] ) {
linear_extrude ( height = w ) {
polygon ( [ [ 0 , 0 ] , [ 12 , 0 ] , [ 12 , 20 ] , [ 8 , 20 ] , [ 8 , 6 ] , [ 0 , 6 ] ] ) ;
}
}
}
}
base ( ) ;
lip ( ) ;
for ( s = [ - 1 , 1 ] ) {
translate ( [ s * ( ( w / 2 ) - t ) , d - t , 0 ] ) {
post ( 60 ) ;
}
}
translate ( [ 0 , d - t , 60 ] ) {
plate ( w - ( 2 * t ) , t , t ) ;
}
";

/// The printed text of the program that a source is; none where it is too long or no program.
fn printed_text(alloc: Global, source: &[u8]) -> Option<Text> {
    if source.len() >= 10000 {
        return None;
    }
    let tokens = lex(alloc, source).ok()?;
    let program = parse(alloc, &tokens).ok()?;
    print(alloc, &program).ok()
}

/// The text without its line feeds.
fn on_one_line(alloc: Global, text: &[u8]) -> Result<String, AllocError> {
    let mut line = String::new(alloc);
    for b in text {
        if *b != b'\n' {
            line.push(char::from(*b))?;
        }
    }
    Ok(line)
}

fn is_printed(alloc: Global, row: &str) -> bool {
    let (source, wanted) = row.split_once(" ~ ").unwrap_or((row, ""));
    let Some(text) = printed_text(alloc, source.as_bytes()) else {
        return false;
    };
    match on_one_line(alloc, text.as_slice()) {
        Ok(line) => line.as_str() == wanted,
        Err(_) => false,
    }
}

#[test]
fn printed_programs_show_what_belongs_together(rt: HostRuntime) {
    for row in PRINTED.lines() {
        expect(&rt, is_printed(rt.alloc(), row), row);
    }
}

fn prints(alloc: Global, source: &str, wanted: &str) -> bool {
    match printed_text(alloc, source.as_bytes()) {
        Some(text) => text.as_slice() == wanted.as_bytes(),
        None => false,
    }
}

// What is printed tells the program, its places aside, so the same text again is the same program.
#[test]
fn printed_programs_are_the_same_programs(rt: HostRuntime) {
    for &(source, wanted) in &[(STAND, PRINTED_STAND), (SMALL, PRINTED_SMALL)] {
        expect(&rt, prints(rt.alloc(), source, wanted), source);
        expect(&rt, prints(rt.alloc(), wanted, wanted), wanted);
    }
}
