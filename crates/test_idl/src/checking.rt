// What is reported of attribute configuration files.
use crate::files::scope_of;
use acf_reader::{Acf, read_acf};
use idl_check::{ACF_FILE, RuleFault, check};
use idl_lexer::lex;
use nd_base::Memory;
use std::alloc::Global;
use std::test::Fail;

const IDL: &[u8] =
    b"[local] interface t { const long C = 1; typedef struct s { long a; } n; void f([in] n a, [in] n b); }";

/// An attribute configuration file, and the octet at which it is refused, if it is.
struct Row {
    text: &'static [u8],
    refused: Option<u32>,
}

const ROWS: &[Row] = &[
    Row {
        text: b"interface t { }",
        refused: None,
    },
    Row {
        text: b"interface T { }",
        refused: Some(0),
    },
    Row {
        text: b"[implicit_handle(n h), code, code] interface t { }",
        refused: None,
    },
    Row {
        text: b"[implicit_handle(s h)] interface t { }",
        refused: Some(0),
    },
    Row {
        text: b"[code, implicit_handle(C h)] interface t { }",
        refused: Some(0),
    },
];

/// It is out of memory too if the text is refused.
fn acf_of(alloc: Global, text: &[u8]) -> Result<Acf, Memory> {
    let Ok(tokens) = lex(alloc, text) else {
        return Err(Memory);
    };
    match read_acf(alloc, &tokens) {
        Ok(acf) => Ok(acf),
        Err(_) => Err(Memory),
    }
}

/// The rule that is reported, the number of the file, and the octet. None if no rule is broken.
fn refusal(alloc: Global, text: &[u8]) -> Result<Option<(u8, u16, u32)>, Memory> {
    let scope = scope_of(alloc, IDL)?;
    let acf = acf_of(alloc, text)?;
    match check(alloc, &scope, Some(&acf)) {
        Ok(_) => Ok(None),
        Err(RuleFault::Broken { rule, place }) => Ok(Some((rule, place.file, place.at))),
        Err(RuleFault::Memory) => Err(Memory),
    }
}

#[test]
fn the_interface_is_that_of_the_idl(rt: HostRuntime) -> Result<(), Fail> {
    for row in ROWS {
        let found = refusal(rt.alloc(), row.text)?;
        match row.refused {
            Some(at) => assert_eq!(rt; found, Some((40, ACF_FILE, at))),
            None => assert_eq!(rt; found, None),
        }
    }
    Ok(())
}
