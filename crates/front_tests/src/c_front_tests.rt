//! Texts that are read, printed and read again.
use c_front::{ReadFault, print, read_unit};
use stack_module::STACK;
use std::alloc::Global;
use std::rt::HostRuntime;
use std::test::Fail;

/// The last procedure of the stack module, as it is printed.
const LAST: &[u8] = b"void destroy ( stack * q ) { clear ( q ) ; free ( q ) ; } ";

/// The text that is printed of the file that a text is.
fn printed(alloc: Global, text: &[u8]) -> Result<Vec<u8>, Fail> {
    if text.len() > 1_000_000 {
        return Err("too long")?;
    }
    match read_unit(alloc, text) {
        Ok(unit) => Ok(print(alloc, &unit)?),
        Err(_) => Err("no file")?,
    }
}

#[test]
fn a_module_is_printed_and_read_again(rt: HostRuntime) -> Result<(), Fail> {
    let alloc = rt.alloc();
    let first = printed(alloc, STACK)?;
    let again = printed(alloc, first.as_slice())?;
    assert!(rt; first.as_slice().ends_with(LAST));
    assert!(rt; first.as_slice() == again.as_slice());
    Ok(())
}

/// Texts, and what is printed of the files that they are: each word with a space behind it.
const PRINTED: [(&str, &str); 3] = [
    (
        "int f(){return(0||1&&1==1!=1<1<=1>1>=1+1-1*1);return-!x->next->data;return g(NULL,x,2147483647);\
         return(struct node*)malloc(sizeof(struct node));}",
        "int f ( ) { return ( 0 || 1 && 1 == 1 != 1 < 1 <= 1 > 1 >= 1 + 1 - 1 * 1 ) ; return - ! x -> next -> data ; \
         return g ( NULL , x , 2147483647 ) ; return ( struct node * ) malloc ( sizeof ( struct node ) ) ; } ",
    ),
    (
        "struct node{int data,**next;};typedef struct{int data;}list;typedef struct node tree;void*g(int x,struct node*);int h(void);",
        "struct node { int data , * * next ; } ; typedef struct { int data ; } list ; typedef struct node tree ; \
         void * g ( int x , struct node * ) ; int h ( void ) ; ",
    ),
    (
        "int f(){list x=NULL,y;if(x);if(x);else break;while(x)continue;do;while(x);for(;;);for(int i=0;i<1;i++)i-=2;\
         x->n=y;x*=1;x+=1;x--;g();free(x);{}return;}",
        "int f ( ) { list x = NULL , y ; if ( x ) ; if ( x ) ; else break ; while ( x ) continue ; do ; while ( x ) ; for ( ; ; ) ; \
         for ( int i = 0 ; i < 1 ; i ++ ) i -= 2 ; x -> n = y ; x *= 1 ; x += 1 ; x -- ; g ( ) ; free ( x ) ; { } return ; } ",
    ),
];

#[test]
fn each_construct_is_printed(rt: HostRuntime) -> Result<(), Fail> {
    let alloc = rt.alloc();
    for (text, wanted) in PRINTED {
        let found = printed(alloc, text.as_bytes())?;
        assert_eq!(rt; found.as_slice(), wanted.as_bytes());
    }
    Ok(())
}

#[test]
fn refusals_of_tokens_come_before_those_of_syntax(rt: HostRuntime) -> Result<(), Fail> {
    let alloc = rt.alloc();
    let rows: [(&[u8], u16, u32, u32); 3] = [
        (b"int f( { return 0; }\n@", 101, 2, 1),
        (b"int f( { return 0; }", 111, 1, 8),
        (b"int f(void) { return 0; }\nint", 111, 2, 4),
    ];
    for (text, code, line, column) in rows {
        match read_unit(alloc, text) {
            Err(ReadFault::Refused(refusal)) => {
                assert!(rt;
                    refusal.code == code && refusal.line == line && refusal.column == column
                );
            }
            _ => return Err("not refused")?,
        }
    }
    Ok(())
}
