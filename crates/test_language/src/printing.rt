//! What is printed of trees: each text is read, printed, and printed again from what was read of that.

use method_parse::{parse_block, parse_setup, print_block, print_class};
use script_text::scan;
use std::alloc::Global;
use std::test::Fail;
use thor_value::Text;
use upgrade_defs::{parse_upgrade, print_upgrade};

/// What a text is read as.
#[derive(Clone, Copy)]
enum Form {
    Block,
    /// The first class of a setup.
    Class,
    Upgrade,
}

/// The text of what is read from another, or nothing.
fn printed(alloc: Global, form: Form, text: &[u8]) -> Option<Text> {
    if 1_000_000 < text.len() {
        return None;
    }
    let tokens = scan(alloc, text).ok()?;
    match form {
        Form::Block => {
            let block = parse_block(alloc, &tokens).ok()?;
            print_block(alloc, &block).ok()
        }
        Form::Class => {
            let setup = parse_setup(alloc, &tokens).ok()?;
            let class = setup.classes.get(0)?;
            print_class(alloc, class).ok()
        }
        Form::Upgrade => {
            let upgrade = parse_upgrade(alloc, &tokens).ok()?;
            print_upgrade(alloc, &upgrade).ok()
        }
    }
}

fn is_text(printed: Option<Text>, wanted: &[u8]) -> bool {
    match printed {
        Some(text) => text.as_slice() == wanted,
        None => false,
    }
}

/// What a text is read as, the text, and what is printed of it.
const ROWS: &[(Form, &[u8], &[u8])] = &[
    (Form::Block, b"{}", b"{ }"),
    (Form::Block, b"{print 007;}", b"{ print 7 ; }"),
    (Form::Block, b"{print 000;\n}", b"{ print 0 ; }"),
    (
        Form::Block,
        b"{print 9223372036854775807;}",
        b"{ print 9223372036854775807 ; }",
    ),
    (
        Form::Block,
        b"{a.b().c(1,-2*3);}",
        b"{ a . b ( ) . c ( 1 , - 2 * 3 ) ; }",
    ),
    (
        Form::Block,
        b"{print (a-b)-c==((d));}",
        b"{ print ( a - b ) - c == ( ( d ) ) ; }",
    ),
    (
        Form::Block,
        b"{var int x=new P()at 03; // three\n x=x+1;var P p=new P();}",
        b"{ var int x = new P ( ) at 3 ; x = x + 1 ; var P p = new P ( ) ; }",
    ),
    (
        Form::Block,
        b"{if(1<2){}else{while(a!=null){print - -1;}}if(1){f;}}",
        b"{ if ( 1 < 2 ) { } else { while ( a != null ) { print - - 1 ; } } if ( 1 ) { f ; } }",
    ),
    (Form::Class, b"free class A{}", b"free class A { }"),
    (
        Form::Class,
        b"part class B{A a;int n;method A f(int x,B y){this.a=x;return this.g(this,y);}method int h(){}}",
        b"part class B { A a ; int n ; method A f ( int x , B y ) { this . a = x ; return this . g ( this , y ) ; } method int h ( ) { } }",
    ),
    (
        Form::Upgrade,
        b"upgrade{class A{}}",
        b"upgrade { class A { } }",
    ),
    (
        Form::Upgrade,
        b"upgrade { // one\n class A { int n = -(old.n + 007)*2; A a=null; B b = old.b.c;\n method int f(int k) { return k; } } class B { } }",
        b"upgrade { class A { int n = - ( old . n + 7 ) * 2 ; A a = null ; B b = old . b . c ; method int f ( int k ) { return k ; } } class B { } }",
    ),
    (
        Form::Upgrade,
        b"upgrade { class A { int n = old.a.b.c - 1 - - 9223372036854775807; int m = 0; } }",
        b"upgrade { class A { int n = old . a . b . c - 1 - - 9223372036854775807 ; int m = 0 ; } }",
    ),
];

#[test]
fn trees_are_printed(rt: HostRuntime) -> Result<(), Fail> {
    for (form, text, wanted) in ROWS {
        assert!(rt; is_text(printed(rt.alloc(), *form, text), wanted));
        assert!(rt; is_text(printed(rt.alloc(), *form, wanted), wanted));
    }
    Ok(())
}
